//! Values and entries of a record, and copies of what passes of them.
ghost use Rattle.std.specs.Prelude.{◌≡◌, IfOk, option_map};
ghost use Rattle.std.specs.Option.{option_copied};
ghost use Rattle.ax_relation.specs.Moved.{first_lists};
ghost use Rattle.ax_format.specs.At.{slot_value};
ghost use Rattle.ax_format.specs.Plain.{value_tree, lists_tree, entries_tree};

use ax_format::{Entries, Lists, Value, Values};
use std::alloc::{AllocError, Global};

/// The value of the slot of that number, if there is an entry for it. Takes no memory.
pub fn value_of(entries: &Entries, slot: u32) -> Option<&Value>
    ensures { option_map value_tree (option_copied result) ≡ slot_value slot (entries_tree entries.now) }
{
    for entry in entries.as_slice() {
        if entry.slot == slot {
            return Some(&entry.value);
        }
    }
    None
}

/// Copies of values.
fn copies(alloc: Global, values: &Values) -> Result<Values, AllocError>
    ensures { IfOk result (λ made. made ≡ values.now) }
{
    let mut made = Values::new(alloc);
    for value in values.as_slice() {
        made.push(value.copy(alloc)?)?;
    }
    Ok(made)
}

/// Copies of the first lists, so many at most: of an extended item its first parts. Err is want of memory.
pub fn first_copies(alloc: Global, count: u32, lists: &Lists) -> Result<Lists, AllocError>
    ensures { IfOk result (λ made. lists_tree made ≡ first_lists count (lists_tree lists.now)) }
{
    let mut made = Lists::new(alloc);
    for values in lists.as_slice() {
        if made.count() == count {
            return Ok(made);
        }
        made.push(copies(alloc, values)?)?;
    }
    Ok(made)
}
