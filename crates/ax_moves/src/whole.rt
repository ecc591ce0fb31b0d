//! What stands in the slots of a record or a compound.
ghost use Rattle.std.specs.Prelude.{◌≡◌, option_map, IfSome};
ghost use Rattle.ax_moves.specs.Wholes.{IsInSlot, whole_entries};
ghost use Rattle.ax_format.specs.At.{slot_value};
ghost use Rattle.ax_walk.specs.Placing.{IsPlaced};
ghost use Rattle.ax_walk.specs.Shown.{item_value};

use ax_codec::Codec;
use ax_walk::{FoundItem, PlacedSlots};

/// An item that was found, and the codec that it is read by.
#[derive(Clone, Copy)]
pub struct CodedItem<'f, 'c, 'a> {
    pub codec: &'c Codec,
    pub found: &'f FoundItem<'c, 'a>,
}

/// A compound that was found, with its codec, and the links of its slots.
#[derive(Clone, Copy)]
pub(crate) struct CodedCompound<'f, 'c, 'a> {
    pub(crate) item: CodedItem<'f, 'c, 'a>,
    pub(crate) slots: &'f [u32],
}

/// The item of a slot. None comes exactly where it isn't marked.
#[inline(always)]
pub fn item_of<'c, 'a>(whole: &PlacedSlots<'_, 'c, 'a>, slot: u32) -> Option<FoundItem<'c, 'a>>
    requires placed { IsPlaced whole.now }
    ensures value { option_map (λ found. item_value found.item) result ≡ slot_value slot (whole_entries whole.now) }
    ensures place { IfSome result (λ found. IsInSlot whole.now slot found.item) }
{
    whole.item(slot)
}
