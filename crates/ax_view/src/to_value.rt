//! Records that are seen, made into trees.
ghost use Rattle.std.specs.Prelude.{◌≡◌, IfOk};
ghost use Rattle.ax_format.specs.Plain.{value_tree, entries_tree, record_tree};
ghost use Rattle.ax_format.specs.Tree.{EntriesTree};
ghost use Rattle.ax_walk.specs.Shown.{record_entries};
ghost use Rattle.ax_walk.specs.Values.{entries_in};

use crate::kinds::record_kind;
use ax_format::{Entries, Record, Value};
use ax_values::decode_kind;
use ax_walk::RecordView;
use std::alloc::{AllocError, Global};

/// What can be made into the tree of a record.
pub trait ToValue {
    // The record's entries.
    ghost entries: { Self → EntriesTree };

    /// The record as a tree. Err is want of memory.
    fn to_value(&self, alloc: Global) -> Result<Record, AllocError>
        ensures { IfOk result (λ made. record_tree made ≡ entries self.now) };
}

impl ToValue for RecordView<'_, '_> {
    ghost entries = { λ one. record_entries one };

    /// The plain codec reads the octets, under a kind that is made of the table.
    fn to_value(&self, alloc: Global) -> Result<Record, AllocError> {
        let kind = record_kind(alloc, self.codec())?;
        match decode_kind(alloc, &kind, self.octets(), 0) {
            Ok((value, _)) => Ok(Record {
                entries: entries_of(alloc, value),
            }),
            Err(_) => Err(AllocError),
        }
    }
}

/// The entries of a compound's value; of another, none.
fn entries_of(alloc: Global, value: Value) -> Entries
    ensures { entries_tree result ≡ entries_in (value_tree value) }
{
    match value {
        Value::Compound(entries) => entries,
        _ => Entries::new(alloc),
    }
}
