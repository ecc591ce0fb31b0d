//! Where RE stands.
ghost use Rattle.std.specs.Prelude.{◌≡◌};
ghost use Rattle.ax_expand_work.specs.ExpandCommand.{is_explicit, re_frn};
ghost use Rattle.ax_format.specs.Plain.{kind_tree, spec_tree};

use ax_format::{Kind, Name, Spec, find_frn};

fn is_explicit(kind: &Kind) -> bool
    ensures { result ≡ is_explicit (kind_tree kind.now) }
{
    match kind {
        Kind::Explicit => true,
        Kind::Fixed(_) => false,
        Kind::Extended { .. } => false,
        Kind::Counted { .. } => false,
        Kind::ByFx(_) => false,
        Kind::Compound(_) => false,
    }
}

/// The number of the first slot of the UAP that has an item RE of kind explicit. None comes exactly where there is none.
#[tactic(auto, using(crate::proofs::Slots::slots))]
pub fn re_slot(spec: &Spec) -> Option<u32>
    ensures { result ≡ re_frn (spec_tree spec.now) }
{
    let Some(name) = Name::of(b"RE") else {
        unreachable!()
    };
    let item = spec.item(&name)?;
    if is_explicit(&item.kind) {
        find_frn(&spec.uap, &name)
    } else {
        None
    }
}
