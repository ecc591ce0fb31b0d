//! Items by name and by field reference number, and kinds by slot number.
ghost use Rattle.std.specs.Prelude.{◌≡◌, Some};
ghost use Rattle.std.specs.Option.{option_copied, option_map};
ghost use Rattle.ax_format.specs.Lengths.{kind_of_slot, slot_kind};
ghost use Rattle.ax_format.specs.Lookup.{item_named, item_of_slot, item_of_frn};
ghost use Rattle.ax_format.specs.Plain.{kind_tree, slot_tree, slots_tree};

use crate::kind::{Kind, Slot, Slots};
use crate::name::Name;
use crate::spec::{Item, Spec, UapSlot};

/// The kind of a slot. None comes exactly where the slot is spare.
fn kind_in(slot: &Slot) -> Option<&Kind>
    ensures { option_map kind_tree (option_copied result) ≡ kind_of_slot (slot_tree slot.now) }
{
    match slot {
        Slot::Spare => None,
        Slot::Sub { kind, .. } => Some(kind),
    }
}

/// The kind of the slot of that number, from 1. None comes exactly where there is no such slot or it is spare.
#[tactic(auto, using(crate::proofs::Counting::kinds))]
pub fn subitem_kind(slots: &Slots, number: u32) -> Option<&Kind>
    ensures { option_map kind_tree (option_copied result) ≡ slot_kind (slots_tree slots.now) number }
{
    if number == 0 {
        return None;
    }
    kind_in(slots.get(number - 1)?)
}

impl Spec {
    /// The first item of that name. None comes exactly where there is none. Looks at each item before it.
    pub fn item(&self, name: &Name) -> Option<&Item>
        ensures { option_copied result ≡ item_named name.now self.now.items }
    {
        self.items.as_slice().iter().find(|item| item.name == *name)
    }

    /// The item of a slot of the UAP. None comes exactly where the slot is spare, and where no item has its name.
    pub fn item_of(&self, slot: &UapSlot) -> Option<&Item>
        ensures { option_copied result ≡ item_of_slot (Some slot.now) self.now.items }
    {
        match slot {
            UapSlot::Spare => None,
            UapSlot::Item(name) => self.item(name),
        }
    }

    /// The item of that field reference number. None comes exactly where the UAP has no such slot, where the
    /// slot is spare, and where no item has its name.
    pub fn slot(&self, frn: u32) -> Option<&Item>
        ensures { option_copied result ≡ item_of_frn frn self.now.uap self.now.items }
    {
        if frn == 0 {
            return None;
        }
        self.item_of(self.uap.get(frn - 1)?)
    }
}
