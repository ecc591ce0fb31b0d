//! Which slots move where, found slot by slot of the new edition.
ghost use Rattle.std.specs.Prelude.{◌≡◌, ◌++◌, ◌∷◌, [], IfOk, OnOk, map};
ghost use Rattle.ax_format.specs.Plain.{kind_tree, slot_tree, slots_tree};
ghost use Rattle.ax_edition.specs.Index.{found, slot_of};
ghost use Rattle.ax_relation.specs.Moves.{moves_below, moves_of, slot_moves};
ghost use Rattle.ax_relation.specs.PlainMoves.{AddsMoves, move_tree};
ghost use Rattle.ax_edition.specs.SlotItems.{item_slot, items_tree};

use crate::index::{Index, NamedSlot, index_below};
use crate::record_items::SlotItems;
use crate::sameness::{is_shared, shared_parts};
use ax_format::{Item, Kind, Slot, Slots};
use ax_relation::{Move, Moves};
use std::alloc::{AllocError, Global};

/// Appends a move. A list of more than 2^32 - 1 moves is a want of memory.
fn push(moves: &mut Moves, one: Move) -> Result<(), AllocError>
    ensures { OnOk result (moves.new ≡ moves.old ++ one ∷ []) }
{
    if moves.count() == u32::MAX {
        return Err(AllocError);
    }
    moves.push(one)
}

/// Appends the move to a new slot that isn't spare, if there is an old slot that it shares.
#[cycle(moves_of)]
#[tactic(auto, using(crate::proofs::MoveLists::puts))]
fn move_to(
    alloc: Global,
    slot: NamedSlot<'_>,
    kind: &Kind,
    old: &Index<'_>,
    moves: &mut Moves,
) -> Result<(), AllocError>
    ensures { OnOk result (AddsMoves moves.old moves.new (slot_moves slot.entry.number (slot_of slot.entry (kind_tree kind.now)) (found old.now))) }
{
    let Some((from, own)) = old.find(slot.name) else {
        return Ok(());
    };
    if !is_shared(own, kind) {
        return Ok(());
    }
    let parts = shared_parts(own, kind);
    let below = moves_of_kinds(alloc, kind, own)?;
    push(
        moves,
        Move {
            old: from,
            new: slot.number,
            parts,
            below,
        },
    )
}

/// What moves below, where both are compounds.
#[cycle(moves_of)]
#[tactic(auto, using(crate::proofs::MoveLists::kinds))]
fn moves_of_kinds(alloc: Global, new: &Kind, old: &Kind) -> Result<Moves, AllocError>
    ensures { IfOk result (λ made. map move_tree made ≡ moves_below (kind_tree new.now) (kind_tree old.now)) }
{
    match new {
        Kind::Compound(slots) => {
            let index = index_below(alloc, &Some(old))?;
            moves_of_slots(alloc, slots, &index)
        }
        _ => Ok(Moves::new(alloc)),
    }
}

/// Appends the move to a new slot of that number.
#[cycle(moves_of)]
fn move_slot(
    alloc: Global,
    slot: &Slot,
    number: u32,
    old: &Index<'_>,
    moves: &mut Moves,
) -> Result<(), AllocError>
    ensures { OnOk result (map move_tree moves.new ≡ map move_tree moves.old ++ slot_moves number (slot_tree slot.now) (found old.now)) }
{
    match slot {
        Slot::Spare => Ok(()),
        Slot::Sub { name, kind } => move_to(alloc, NamedSlot { number, name }, kind, old, moves),
    }
}

#[cycle(moves_of)]
#[tactic(auto, using(crate::proofs::MoveLists::slots))]
fn moves_of_slots(alloc: Global, new: &Slots, old: &Index<'_>) -> Result<Moves, AllocError>
    ensures { IfOk result (λ made. map move_tree made ≡ moves_of 1 (slots_tree new.now) (found old.now)) }
{
    let mut made = Moves::new(alloc);
    let mut before: u32 = 0;
    for slot in new.as_slice() {
        move_slot(alloc, slot, before + 1, old, &mut made)?;
        before += 1;
    }
    Ok(made)
}

/// Appends the move to a new slot of the UAP of that number.
fn move_item(
    alloc: Global,
    item: &Option<&Item>,
    number: u32,
    old: &Index<'_>,
    moves: &mut Moves,
) -> Result<(), AllocError>
    ensures { OnOk result (map move_tree moves.new ≡ map move_tree moves.old ++ slot_moves number (item_slot item.now) (found old.now)) }
{
    match item {
        None => Ok(()),
        Some(item) => {
            let named = NamedSlot {
                number,
                name: &item.name,
            };
            move_to(alloc, named, &item.kind, old, moves)
        }
    }
}

/// What moves, in the order of the new UAP.
#[tactic(auto, using(crate::proofs::MoveLists::items))]
pub(crate) fn move_items(
    alloc: Global,
    new: &SlotItems<'_>,
    old: &Index<'_>,
) -> Result<Moves, AllocError>
    ensures { IfOk result (λ made. map move_tree made ≡ moves_of 1 (items_tree new.now) (found old.now)) }
{
    let mut made = Moves::new(alloc);
    let mut before: u32 = 0;
    for item in new.as_slice() {
        move_item(alloc, item, before + 1, old, &mut made)?;
        before += 1;
    }
    Ok(made)
}
