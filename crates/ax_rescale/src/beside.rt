//! Where the path that leads to a place of the old edition leads in the new one.
ghost use Rattle.std.specs.Prelude.{◌≡◌, IfOk, option_map};
ghost use Rattle.ax_edition.specs.Index.{Finds};
ghost use Rattle.ax_edition.specs.SlotItems.{items_tree};
ghost use Rattle.ax_format.specs.Plain.{kind_tree, slots_tree};
ghost use Rattle.ax_format.specs.Tree.{SlotsTree, compound};
ghost use Rattle.ax_rescale.specs.Beside.{alike_between, slot_numbered, step_beside, step_between};
ghost use Rattle.ax_rescale.specs.Besides.{named_kind, step_tree};

use crate::alike::is_alike;
use ax_edition::{Index, SlotItems};
use ax_format::{Kind, Name, Place, Slot, Slots, Steps, find_slot};
use std::alloc::{AllocError, Global};

/// A slot of the new edition, with its kind and that of the old slot of its name.
#[derive(Clone, Copy)]
pub(crate) struct SlotPair<'k> {
    number: u32,
    old: &'k Kind,
    new: &'k Kind,
}

/// The name and the kind of the slot of that number.
fn slot_at<'k>(slots: &'k Slots, number: u32) -> Option<(&'k Name, &'k Kind)>
    ensures { option_map named_kind result ≡ slot_numbered number (slots_tree slots.now) }
{
    if number == 0 {
        return None;
    }
    match slots.get(number - 1)? {
        Slot::Sub { name, kind } => Some((name, kind)),
        Slot::Spare => None,
    }
}

/// The name and the kind of the item of the slot of the UAP of that number.
fn item_at<'k>(items: &SlotItems<'k>, frn: u32) -> Option<(&'k Name, &'k Kind)>
    ensures { option_map named_kind result ≡ slot_numbered frn (items_tree items.now) }
{
    if frn == 0 {
        return None;
    }
    match items.get(frn - 1)? {
        Some(item) => Some((&item.name, &item.kind)),
        None => None,
    }
}

/// The new slot that has the name of the old one of that number.
fn slots_beside<'k>(old: &'k Slots, new: &'k Slots, number: u32) -> Option<SlotPair<'k>>
    ensures { option_map step_tree result ≡ step_between number (slots_tree old.now) (slots_tree new.now) }
{
    let (name, kind) = slot_at(old, number)?;
    let (number, to) = find_slot(new, name)?;
    Some(SlotPair {
        number,
        old: kind,
        new: to,
    })
}

/// The same below two kinds, where both are compounds.
#[tactic(auto, using(crate::proofs::BesideSteps::kinds))]
fn step_beside<'k>(old: &'k Kind, new: &'k Kind, number: u32) -> Option<SlotPair<'k>>
    ensures { option_map step_tree result ≡ step_beside number (kind_tree old.now) (kind_tree new.now) }
{
    match old {
        Kind::Compound(slots) => match new {
            Kind::Compound(own) => slots_beside(slots, own, number),
            _ => None,
        },
        _ => None,
    }
}

/// The same for the slots of both UAPs.
fn first_beside<'k>(old: &SlotItems<'k>, new: &Index<'k>, frn: u32) -> Option<SlotPair<'k>>
    ensures { (ns : SlotsTree) → Finds 1 ns new.now → option_map step_tree result ≡ step_between frn (items_tree old.now) ns }
{
    let (name, kind) = item_at(old, frn)?;
    let (number, to) = new.find(name)?;
    Some(SlotPair {
        number,
        old: kind,
        new: to,
    })
}

/// The place of the new edition to which the path of an old place leads, where the kinds at both are alike; None where there is
/// none. Err is want of memory.
pub(crate) fn alike_place(
    alloc: Global,
    old: &SlotItems<'_>,
    new: &Index<'_>,
    place: &Place,
) -> Result<Option<Place>, AllocError>
    ensures { (ns : SlotsTree) → Finds 1 ns new.now → IfOk result (λ made. made ≡ alike_between (compound (items_tree old.now)) (compound ns) place.now) }
{
    let Some(first) = first_beside(old, new, place.frn) else {
        return Ok(None);
    };
    let mut steps = Steps::new(alloc);
    let mut last = first;
    for number in place.steps.as_slice() {
        let Some(next) = step_beside(last.old, last.new, *number) else {
            return Ok(None);
        };
        steps.push(next.number)?;
        last = next;
    }
    if !is_alike(last.old, last.new) {
        return Ok(None);
    }
    Ok(Some(Place {
        frn: first.number,
        steps,
    }))
}
