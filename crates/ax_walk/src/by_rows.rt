//! The walk over a record by the rows of its slots.
ghost use Rattle.std.specs.Prelude.{◌+◌, ◌*◌, ◌<◌, ◌≤◌, length, IfSome, IsTrue};
ghost use Rattle.ax_fspec.specs.Marks.{seven};
ghost use Rattle.ax_format.specs.Presence.{octets_needed};
ghost use Rattle.ax_format.specs.Sizes.{longest_body};
ghost use Rattle.ax_rows.specs.Rows.{IsRow, AreRows};
ghost use Rattle.ax_walk.specs.Marked.{FieldHasRows, RowLeads, RowsLead, slots_kind};
ghost use Rattle.ax_walk.specs.Rows.{IsField, WalksItems, slots_at};
ghost use Rattle.ax_walk.specs.Walking.{WalksFrom};

use crate::notes::Notes;
use crate::octets::note_field;
use crate::record::Walked;
use crate::record_rows::RowWalk;
use crate::start::{Field, Start, are_octets};
use crate::table::LinkedSlots;
use crate::value_walk::ValueWalk;
use ax_codec::Codec;
use ax_rows::{NO_ROW, Rows, Step};

/// The row of a presence octet: it begins with the step of number `first`.
#[derive(Clone, Copy)]
struct Row<'r> {
    steps: &'r [Step],
    first: u32,
    /// The number of the presence octet in its field, from 0, and its seven marks.
    index: u32,
    marks: u8,
}

/// The octet after the values of the slots that a presence octet marks, by its row. None says nothing.
#[inline(always)]
fn walk_row<W: ValueWalk>(
    values: &W,
    slots: LinkedSlots<'_>,
    row: Row<'_>,
    start: Start<'_>,
    notes: &mut Notes,
) -> Option<u32>
    requires fits { W.fits values.now slots.table.nodes.now slots.table.octets.now }
    requires row { IsRow slots.table.octets.now (slots_at row.index slots.links.now) (seven row.marks) row.steps.now row.first }
    ensures end { IfSome result (λ end. RowLeads slots.entry row.entry.index row.entry.marks start.entry end notes.new.least) }
    ensures within { IfSome result (λ end. end ≤ length start.entry.body.now) }
    ensures falls { IsTrue notes.new.least → IsTrue notes.old.least }
{
    let body = start.body;
    let steps = row.steps;
    let mut here = start.at;
    let mut place = row.first as usize;
    loop {
        let step = steps[place];
        let next = here as u64 + step.skip as u64;
        if next > body.len() as u64 {
            return None;
        }
        here = next as u32;
        if step.link == 0 {
            return Some(here);
        }
        here = values.walk_value(slots.table, step.link, Start { body, at: here }, notes)?;
        place += 1;
    }
}

/// The octet after the values of the slots that a presence field marks, by the rows of its octets. None says nothing.
#[inline(always)]
fn walk_rows<W: ValueWalk>(
    values: &W,
    slots: LinkedSlots<'_>,
    rows: Rows<'_>,
    field: Field<'_>,
    notes: &mut Notes,
) -> Option<u32>
    requires fits { W.fits values.now slots.table.nodes.now slots.table.octets.now }
    requires rows { AreRows slots.table.octets.now slots.links.now rows.start.now rows.steps.now }
    requires count { 128 * field.octets ≤ length rows.start.now }
    ensures rows { IfSome result (λ end. FieldHasRows slots.entry field.entry) }
    ensures end { IfSome result (λ end. RowsLead slots.entry field.entry end notes.new.least) }
    ensures falls { IsTrue notes.new.least → IsTrue notes.old.least }
{
    let body = field.start.body;
    let at = field.start.at;
    let mut here = at + field.octets;
    for index in 0..field.octets {
        let marks = body[(at + index) as usize] >> 1;
        let first = rows.start[128 * index as usize + marks as usize];
        if first == NO_ROW {
            return None;
        }
        let row = Row {
            steps: rows.steps,
            first,
            index,
            marks,
        };
        here = walk_row(values, slots, row, Start { body, at: here }, notes)?;
    }
    Some(here)
}

/// The octets of the presence field at the start, where it has no more than so many slots need. None says nothing.
#[inline(always)]
pub(crate) fn field_octets(start: Start<'_>, slots: u32) -> Option<u32>
    requires { slots ≤ 126 }
    ensures field { IfSome result (λ count. IsField start.entry.body.now start.entry.at count) }
    ensures few { IfSome result (λ count. count ≤ octets_needed slots) }
{
    let body = start.body;
    let mut index = 0;
    while 7 * index < slots {
        let place = (start.at + index) as usize;
        if place >= body.len() {
            return None;
        }
        index += 1;
        if body[place] & 1 == 0 {
            return Some(index);
        }
    }
    None
}

/// Where a record, or a compound, of these slots ends, by their rows, and how many octets its presence field has. None says nothing.
#[inline(always)]
pub(crate) fn walk_by_rows<W: ValueWalk>(
    values: &W,
    slots: LinkedSlots<'_>,
    rows: Rows<'_>,
    start: Start<'_>,
    notes: &mut Notes,
) -> Option<Walked>
    requires fits { W.fits values.now slots.table.nodes.now slots.table.octets.now }
    requires rows { AreRows slots.table.octets.now slots.links.now rows.start.now rows.steps.now }
    ensures end { IfSome result (λ walked. WalksFrom (slots_kind slots.entry) start.entry walked.end notes.new.least) }
    ensures field { IfSome result (λ walked. IsField start.entry.body.now start.entry.at walked.field) }
    ensures few { IfSome result (λ walked. walked.field ≤ octets_needed slots.entry.mask.now.count) }
    ensures inside { IfSome result (λ walked. start.entry.at + walked.field ≤ walked.end) }
    ensures falls { IsTrue notes.new.least → IsTrue notes.old.least }
{
    are_octets(start.body);
    let field = field_octets(start, slots.mask.count)?;
    note_field(start.body, start.at, start.at + field, notes);
    let octets = Field {
        start,
        octets: field,
    };
    let end = walk_rows(values, slots, rows, octets, notes)?;
    Some(Walked { field, end })
}

/// The octet after the items of the record whose presence field begins at octet `at`, by their rows; notes tell of the presence
/// fields in these items alone. None says nothing.
pub fn items_by_rows(codec: &Codec, body: &[u8], at: u32, notes: &mut Notes) -> Option<u32>
    requires body { length body.now ≤ longest_body }
    requires at { at ≤ length body.now }
    ensures { IfSome result (λ end. WalksItems codec.now body.now at end notes.new.least) }
{
    let slots = LinkedSlots::of(codec);
    let by = RowWalk::of(codec)?;
    let start = Start { body, at };
    let octets = field_octets(start, codec.mask.count)?;
    walk_rows(&by.values, slots, by.rows, Field { start, octets }, notes)
}
