//! The items of the slots of the UAP.
ghost use Rattle.std.specs.Prelude.{◌≡◌, ◌++◌, ◌∷◌, [], Some, OnOk, IfOk};
ghost use Rattle.std.specs.Option.{option_copied};
ghost use Rattle.ax_format.specs.Lookup.{item_of_slot};
ghost use Rattle.ax_format.specs.Plain.{spec_tree};
ghost use Rattle.ax_format.specs.Specification.{record_slots};
ghost use Rattle.ax_edition.specs.Numbers.{CountsItems};
ghost use Rattle.ax_edition.specs.SlotItems.{items_tree};

use crate::numbers::{Numbers, number_items};
use ax_format::{Item, Items, Spec, UapSlot};
use ax_lists::Sequence;
use std::alloc::{AllocError, Global};

/// The item of each slot of the UAP, in order; a spare slot has none.
pub type SlotItems<'s> = Sequence<Option<&'s Item>>;

/// The item of a slot.
#[tactic(auto, using(crate::proofs::UapWalk::by_number))]
fn item_of<'s>(items: &'s Items, numbers: &Numbers, slot: &UapSlot) -> Option<&'s Item>
    requires { CountsItems 1 items.now numbers.now }
    ensures { option_copied result ≡ item_of_slot (Some slot.now) items.now }
{
    let UapSlot::Item(name) = slot else {
        return None;
    };
    let number = numbers.get(name)?;
    if number == 0 {
        return None;
    }
    items.get(number - 1)
}

/// Appends an item. A list of more than 2^32 - 1 members is a want of memory.
fn push<'s>(items: &mut SlotItems<'s>, item: &Option<&'s Item>) -> Result<(), AllocError>
    ensures { OnOk result (items.new ≡ items.old ++ item.now ∷ []) }
{
    if items.count() == u32::MAX {
        return Err(AllocError);
    }
    items.push(*item)
}

/// The items of the slots of the UAP, in order. Err is want of memory.
#[tactic(auto, using(crate::proofs::UapWalk::walk))]
pub fn slot_items<'s>(alloc: Global, spec: &'s Spec) -> Result<SlotItems<'s>, AllocError>
    ensures { IfOk result (λ made. items_tree made ≡ record_slots (spec_tree spec.now)) }
{
    let numbers = number_items(alloc, &spec.items)?;
    let mut made = SlotItems::new(alloc);
    for slot in spec.uap.as_slice() {
        push(&mut made, &item_of(&spec.items, &numbers, slot))?;
    }
    Ok(made)
}
