//! The masks of the slots of compounds and records.
ghost use Rattle.std.specs.Prelude.{◌≡◌, ◌≤◌, length, map};
ghost use Rattle.ax_format.specs.Plain.{slot_tree};
ghost use Rattle.ax_fspec.specs.Reading.{IsMaskOf, is_subitem};

use ax_format::{Slot, Slots};
use ax_fspec::{Presence, SlotMask};

/// Whether the slot is a subitem's.
fn is_sub(slot: &Slot) -> bool
    ensures { result ≡ is_subitem (slot_tree slot.now) }
{
    match slot {
        Slot::Spare => false,
        Slot::Sub { .. } => true,
    }
}

/// The mask of the slots of a compound, of which there are 1 to 126.
pub fn slots_mask(slots: &Slots) -> SlotMask
    requires { (1 ≤ length slots.now) × (length slots.now ≤ 126) }
    ensures { IsMaskOf (map slot_tree slots.now) result }
{
    let mut defined = Presence::empty();
    let mut number = 0;
    for slot in slots.as_slice() {
        number += 1;
        if is_sub(slot) {
            defined.mark(number);
        }
    }
    SlotMask {
        count: slots.count(),
        defined,
    }
}
