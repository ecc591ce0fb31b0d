//! The laws of converted values. Each function stands for what its contract says.
ghost use Rattle.std.specs.Prelude.{◌≡◌, ◌↔◌, true};
ghost use Rattle.std.specs.List.{AllByRecursion};
ghost use Rattle.ax_format.specs.Flaws.{NoFlaw};
ghost use Rattle.ax_format.specs.Shape.{Shape};
ghost use Rattle.ax_format.specs.Specification.{ItemTree, SpecTree};
ghost use Rattle.ax_format.specs.Tree.{KindTree, ValueTree};
ghost use Rattle.ax_rescale.specs.Alike.{Alike, is_alike};
ghost use Rattle.ax_rescale.specs.Converted.{Converted};
ghost use Rattle.ax_rescale.specs.Scales.{Scaled};

/// The test of alikeness holds exactly for alike kinds.
#[tactic(auto, using(ax_rescale::proofs::AlikeKinds::alike_kinds, ax_rescale::proofs::AlikeKinds::kinds_alike))]
pub fn alikeness_is_tested()
    ensures { (old new : KindTree) → is_alike old new ≡ true ↔ Alike old new }
{}

/// A value is converted to at most one value.
#[tactic(auto, using(ax_rescale::proofs::ConvertedOnce::converted_once))]
pub fn converted_once()
    ensures { (old new : KindTree) (value one other : ValueTree) → Scaled old → Scaled new → Converted old new value one
        → Converted old new value other → one ≡ other }
{}

/// A converted value has the new kind's shape.
#[tactic(auto, using(ax_rescale::proofs::ConvertedShape::converted_shape))]
pub fn converted_has_its_shape()
    ensures { (old new : KindTree) (value made : ValueTree) → Alike old new → Shape old value → Converted old new value made
        → Shape new made }
{}

/// The kinds of a specification without flaw have what the conversion of their values asks for: quantities of 1 to 64 bits, and no 0
/// in a scale.
#[tactic(auto, using(ax_rescale::proofs::ScaledKinds::without_flaw_scaled))]
pub fn without_flaw_scaled()
    ensures { (spec : SpecTree) → NoFlaw spec → AllByRecursion (λ (item : ItemTree). Scaled item.kind) spec.items }
{}
