//! The named paths of the old edition entered, each with what is shared at it.
ghost use Rattle.std.specs.Prelude.{◌≡◌, ◌++◌, ℕ, List, ◌∷◌, [], None, Some, OnOk, IfOk, option_map, unwrap_or, false};
ghost use Rattle.std.specs.Option.{option_copied};
ghost use Rattle.ax_format.specs.Plain.{kind_tree, slot_tree, slots_tree};
ghost use Rattle.ax_edition.specs.Known.{kind_found, known_kind, known_slot, known_slots};
ghost use Rattle.ax_relation.specs.Known.{said, sharing_of, Says, Knows};
ghost use Rattle.ax_edition.specs.SlotItems.{item_slot, items_tree};

use crate::index::{Index, index_below};
use crate::record_items::SlotItems;
use crate::sameness::{is_shared, shared_parts};
use ax_format::{Item, Kind, Name, Slot, Slots};
use ax_relation::{Known, Sharing};
use std::alloc::{AllocError, Global};

/// What the kind shares with the one at the same path, if there is one.
fn sharing(kind: &Kind, new: &Option<&Kind>) -> Sharing
    ensures { result ≡ sharing_of (Some (kind_tree kind.now)) (option_map kind_tree (option_copied new.now)) }
{
    match new {
        Some(other) => Sharing {
            path: is_shared(kind, *other),
            parts: shared_parts(kind, *other),
        },
        None => Sharing {
            path: false,
            parts: 0,
        },
    }
}

/// The kind of that name in an index.
fn kind_in<'k>(index: &Index<'k>, name: &Name) -> Option<&'k Kind>
    ensures { option_map kind_tree (option_copied result) ≡ kind_found index.now name.now }
{
    match index.find(name) {
        Some((_, kind)) => Some(kind),
        None => None,
    }
}

/// The names and one more.
fn with_name(alloc: Global, names: &[Name], name: &Name) -> Result<Vec<Name>, AllocError>
    ensures { IfOk result (λ made. made.items ≡ names.now ++ name.now ∷ []) }
{
    let mut made = Vec::from_slice(alloc, names)?;
    made.push(*name)?;
    Ok(made)
}

/// Enters the path of a kind, and those below.
#[cycle(know)]
#[tactic(auto, using(crate::proofs::Saying::kinds))]
fn know_kind(
    alloc: Global,
    known: &mut Known,
    names: &[Name],
    kind: &Kind,
    new: &Option<&Kind>,
) -> Result<(), AllocError>
    ensures { OnOk result (Says (known_kind names.now (kind_tree kind.now) (option_map kind_tree (option_copied new.now))) known.old known.new) }
{
    known.enter(alloc, names, sharing(kind, new))?;
    match kind {
        Kind::Compound(slots) => {
            let index = index_below(alloc, new)?;
            know_slots(alloc, known, names, slots, &index)?;
        }
        _ => {}
    }
    Ok(())
}

/// Enters the paths of a slot.
#[cycle(know)]
#[tactic(auto, using(crate::proofs::Saying::one_slot))]
fn know_slot(
    alloc: Global,
    known: &mut Known,
    names: &[Name],
    slot: &Slot,
    index: &Index<'_>,
) -> Result<(), AllocError>
    ensures { OnOk result (Says (known_slot names.now (slot_tree slot.now) (kind_found index.now)) known.old known.new) }
{
    match slot {
        Slot::Spare => Ok(()),
        Slot::Sub { name, kind } => {
            let below = with_name(alloc, names, name)?;
            know_kind(alloc, known, below.as_slice(), kind, &kind_in(index, name))
        }
    }
}

/// Enters the paths of the slots of a compound.
#[cycle(know)]
#[tactic(auto, using(crate::proofs::Saying::slots))]
fn know_slots(
    alloc: Global,
    known: &mut Known,
    names: &[Name],
    slots: &Slots,
    index: &Index<'_>,
) -> Result<(), AllocError>
    ensures { OnOk result (Says (known_slots names.now (slots_tree slots.now) (kind_found index.now)) known.old known.new) }
{
    for slot in slots.as_slice() {
        know_slot(alloc, known, names, slot, index)?;
    }
    Ok(())
}

/// Enters the paths of a slot of the UAP.
#[tactic(auto, using(crate::proofs::Saying::one_slot))]
fn know_item(
    alloc: Global,
    known: &mut Known,
    item: &Option<&Item>,
    index: &Index<'_>,
) -> Result<(), AllocError>
    ensures { OnOk result (Says (known_slot [] (item_slot item.now) (kind_found index.now)) known.old known.new) }
{
    match item {
        None => Ok(()),
        Some(item) => {
            let below = with_name(alloc, &[], &item.name)?;
            let new = kind_in(index, &item.name);
            know_kind(alloc, known, below.as_slice(), &item.kind, &new)
        }
    }
}

/// The paths of the slots of the UAP.
#[tactic(auto, using(crate::proofs::Saying::items))]
pub(crate) fn know_items(
    alloc: Global,
    items: &SlotItems<'_>,
    index: &Index<'_>,
) -> Result<Known, AllocError>
    ensures { IfOk result (λ known. Knows (known_slots [] (items_tree items.now) (kind_found index.now)) known) }
{
    let mut known = Known::new(alloc);
    for item in items.as_slice() {
        know_item(alloc, &mut known, item, index)?;
    }
    Ok(known)
}
