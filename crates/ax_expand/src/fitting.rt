//! Which values are those of contents.
ghost use Rattle.std.specs.Prelude.{◌↔◌, IsTrue};
ghost use Rattle.ax_format.specs.Plain.{slots_tree, value_tree};
ghost use Rattle.ax_format.specs.Shape.{Shape};
ghost use Rattle.ax_format.specs.Tree.{compound};

use crate::accepted::AcceptedExpansion;
use ax_format::{Value, fits_kind};

/// Whether the value has the shape of the compound of the expansion's slots. Takes no memory.
#[tactic(auto, using(crate::proofs::Shapes::shapes))]
pub fn fits_content(x: &AcceptedExpansion, value: &Value) -> bool
    ensures { IsTrue result ↔ Shape (compound (slots_tree x.now.slots)) (value_tree value.now) }
{
    match x.wrapped().items.get(0) {
        Some(item) => fits_kind(&item.kind, value),
        None => false,
    }
}
