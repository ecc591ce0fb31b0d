//! Members, subitems and UAP slots by name: the first of that name, with its number. Each looks at all that stand before
//! it, and takes no memory.
ghost use Rattle.std.specs.Prelude.{◌≡◌, option_map};
ghost use Rattle.std.specs.Option.{option_copied};
ghost use Rattle.ax_format.specs.OfCode.{FindsMember, FindsInParts, FindsSlot};
ghost use Rattle.ax_format.specs.Plain.{fixed_tree, member_tree, kind_tree, slot_tree};
ghost use Rattle.ax_format.specs.Naming.{fixed_named, kind_named, frn_of, is_slot_of};

use crate::kind::{Fixed, Kind, Member, Members, Parts, Slot, Slots};
use crate::name::Name;
use crate::spec::{UapSlot, UapSlots};

/// The fixed kind of a member, if it has the name.
fn fixed_of<'k>(member: &'k Member, name: &Name) -> Option<&'k Fixed>
    ensures { option_map fixed_tree (option_copied result) ≡ fixed_named name.now (member_tree member.now) }
{
    match member {
        Member::Named { name: own, fixed } if own.is(name) => Some(fixed),
        _ => None,
    }
}

/// The first member of that name, with its number from 0. None comes exactly where no member has it.
#[tactic(auto, using(crate::proofs::Namings::members))]
pub fn find_member<'k>(members: &'k Members, name: &Name) -> Option<(u32, &'k Fixed)>
    ensures { FindsMember name.now members.now result }
{
    let mut number: u32 = 0;
    for member in members.as_slice() {
        if let Some(fixed) = fixed_of(member, name) {
            return Some((number, fixed));
        }
        number += 1;
    }
    None
}

/// The first member of that name among all parts, with the number of its part and its own in that part, both from 0.
/// None comes exactly where no part has such a member.
#[tactic(auto, using(crate::proofs::Namings::parts))]
pub fn find_in_parts<'k>(parts: &'k Parts, name: &Name) -> Option<(u32, u32, &'k Fixed)>
    ensures { FindsInParts name.now parts.now result }
{
    let mut number: u32 = 0;
    for part in parts.as_slice() {
        if let Some((member, fixed)) = find_member(&part.members, name) {
            return Some((number, member, fixed));
        }
        number += 1;
    }
    None
}

/// The kind of a slot, if it has the name.
fn kind_of_name<'k>(slot: &'k Slot, name: &Name) -> Option<&'k Kind>
    ensures { option_map kind_tree (option_copied result) ≡ kind_named name.now (slot_tree slot.now) }
{
    match slot {
        Slot::Sub { name: own, kind } if own.is(name) => Some(kind),
        _ => None,
    }
}

/// The first subitem of that name, with the number of its slot from 1. None comes exactly where no slot has it.
#[tactic(auto, using(crate::proofs::Namings::slots))]
pub fn find_slot<'k>(slots: &'k Slots, name: &Name) -> Option<(u32, &'k Kind)>
    ensures { FindsSlot name.now slots.now result }
{
    let mut before: u32 = 0;
    for slot in slots.as_slice() {
        if let Some(kind) = kind_of_name(slot, name) {
            return Some((before + 1, kind));
        }
        before += 1;
    }
    None
}

/// The field reference number of the first slot of the UAP with that name. None comes exactly where no slot has it.
#[tactic(auto, using(crate::proofs::Namings::uap))]
pub fn find_frn(slots: &UapSlots, name: &Name) -> Option<u32>
    ensures { result ≡ frn_of 1 name.now slots.now }
{
    let mut before: u32 = 0;
    for slot in slots.as_slice() {
        if is_of(slot, name) {
            return Some(before + 1);
        }
        before += 1;
    }
    None
}

fn is_of(slot: &UapSlot, name: &Name) -> bool
    ensures { result ≡ is_slot_of name.now slot.now }
{
    match slot {
        UapSlot::Spare => false,
        UapSlot::Item(own) => own.is(name),
    }
}
