//! The laws of conversion. Each function stands for what its contract says.
ghost use Rattle.std.specs.Prelude.{◌≡◌, ℕ, ◌<◌};
ghost use Rattle.ax_format.specs.declared.content.Scale.{Scale};
ghost use Rattle.ax_rescale.specs.Rescaled.{IsConverted};

/// A number has at most one converted number.
#[tactic(auto, using(ax_rescale::proofs::Once::once))]
pub fn converts_to_one_number()
    ensures { (old new : Scale) (w u n m other : ℕ) → 0 < new.num → 0 < old.den → IsConverted w old n u new m
        → IsConverted w old n u new other → m ≡ other }
{}
