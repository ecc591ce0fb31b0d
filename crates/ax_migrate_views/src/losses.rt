//! What the records of a view lose, one loss after the other.
ghost use Rattle.std.specs.Prelude.{◌+◌, ◌≤◌, length};
ghost use Rattle.ax_format.specs.Sizes.{longest_body};
ghost use Rattle.ax_walk.specs.Left.{records_left};

use ax_relation::{RelationPath, RelationPaths};
use ax_walk::{RecordView, Records};

/// What one record loses, an iterator, in the order of the keys of the old edition.
#[derive(Drop)]
pub(crate) struct RecordLosses<'m> {
    pub(crate) record: RecordView<'m, 'm>,
    /// The number of the record in its block, from 0.
    pub(crate) number: u32,
    /// The keys that are still to be looked at.
    pub(crate) left: &'m [RelationPath],
}

/// What the records of a view lose, an iterator: by record and, in a record, in the order of the keys of the old edition.
#[derive(Drop)]
pub struct Losses<'m> {
    /// The keys of the old edition.
    pub(crate) paths: &'m RelationPaths,
    /// The record that is looked at.
    pub(crate) here: Option<RecordLosses<'m>>,
    /// How many records were come to: the number of the next one.
    pub(crate) count: u32,
    /// The records behind that one.
    pub(crate) later: Records<'m, 'm>,
    ghost few: { count + length (records_left later) ≤ longest_body },
}
