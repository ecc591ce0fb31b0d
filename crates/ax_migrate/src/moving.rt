//! Values and entries of the old edition, as they move to the new one.
ghost use Rattle.std.specs.Prelude.{◌≡◌, ◌++◌, map, IfOk, OnOk};
ghost use Rattle.ax_relation.specs.PlainMoves.{move_tree, moves_tree};
ghost use Rattle.ax_migration.specs.Moving.{entries_by, move_entries, moved_by};
ghost use Rattle.ax_format.specs.Plain.{value_tree, entry_tree, entries_tree};

use ax_format::{Entries, Entry, Value};
use ax_relation::{Move, Moves, first_copies, value_of};
use std::alloc::{AllocError, Global};

/// The value as it moves: of an extended item so many first parts, in a compound what moves below, and else all of it.
#[cycle(moving)]
fn moved_value(alloc: Global, parts: u32, moves: &Moves, value: &Value) -> Result<Value, AllocError>
    ensures { IfOk result (λ made. value_tree made ≡ moved_by parts (moves_tree moves.now) (value_tree value.now)) }
{
    match value {
        Value::Compound(entries) => Ok(Value::Compound(moved_entries(alloc, moves, entries)?)),
        Value::Extended(lists) => Ok(Value::Extended(first_copies(alloc, parts, lists)?)),
        _ => value.copy(alloc),
    }
}

/// Appends the entry that the move makes, if there is one. A list of more than 2^32 - 1 entries is a want of memory.
#[cycle(moving)]
fn move_entry(
    alloc: Global,
    one: &Move,
    entries: &Entries,
    made: &mut Entries,
) -> Result<(), AllocError>
    ensures { OnOk result (map entry_tree made.new ≡ map entry_tree made.old ++ move_entries (move_tree one.now) (entries_tree entries.now)) }
{
    let Some(value) = value_of(entries, one.old) else {
        return Ok(());
    };
    let value = moved_value(alloc, one.parts, &one.below, value)?;
    if made.count() == u32::MAX {
        return Err(AllocError);
    }
    made.push(Entry {
        slot: one.new,
        value,
    })?;
    Ok(())
}

/// The entries as they move, in the order of the moves.
#[cycle(moving)]
#[tactic(auto, using(crate::proofs::EntryLists::entries))]
pub(crate) fn moved_entries(
    alloc: Global,
    moves: &Moves,
    entries: &Entries,
) -> Result<Entries, AllocError>
    ensures { IfOk result (λ made. entries_tree made ≡ entries_by (moves_tree moves.now) (entries_tree entries.now)) }
{
    let mut made = Entries::new(alloc);
    for one in moves.as_slice() {
        move_entry(alloc, one, entries, &mut made)?;
    }
    Ok(made)
}
