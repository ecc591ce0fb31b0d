//! Compounds walked over by the rows of their slots.
ghost use Rattle.std.specs.Prelude.{◌<◌, ◌≤◌, length, IfSome, IfNone, IsTrue};
ghost use Rattle.ax_format.specs.InBounds.{InBounds};
ghost use Rattle.ax_format.specs.Sizes.{longest_body};
ghost use Rattle.ax_rows.specs.Rows.{AreRows};
ghost use Rattle.ax_codec.specs.NodeRows.{EachRows};
ghost use Rattle.ax_codec.specs.Table.{kind_at};
ghost use Rattle.ax_walk.specs.Marked.{AreRowsAt, slots_kind};
ghost use Rattle.ax_walk.specs.RecordRows.{AreValueRows};
ghost use Rattle.ax_walk.specs.Walking.{WalksKind, WalksFrom, FailsFrom};

use crate::by_rows::walk_by_rows;
use crate::extents::extent_end;
use crate::notes::Notes;
use crate::octets::{note_field, octets_end, walk_node};
use crate::start::{Start, are_octets};
use crate::table::{LinkedSlots, Table};
use crate::value_walk::{ByNodes, ValueWalk};
use ax_codec::{Codec, Extent, Node};
use ax_rows::{NO_ROW, Rows, SlotRows};

/// The rows of a node's slots. None comes where it has none.
#[inline(always)]
#[tactic(auto, using(crate::proofs::CompoundRows::there))]
fn compound_rows<'r>(table: Table<'_>, compounds: &'r [SlotRows], link: u32) -> Option<Rows<'r>>
    requires compounds { EachRows table.octets.now table.nodes.now compounds.now }
    requires link { (0 < link) × (link ≤ length table.nodes.now) }
    ensures { IfSome result (AreRowsAt table.entry link) }
{
    let place = link as usize - 1;
    if place >= compounds.len() {
        return None;
    }
    let rows = &compounds[place];
    if rows.is_empty() {
        return None;
    }
    Some(rows.as_rows())
}

/// The octet after a compound, by the rows of its slots, where each marked one has fixed octets. None says nothing.
#[inline(always)]
fn skip_compound(
    table: Table<'_>,
    link: u32,
    rows: Rows<'_>,
    start: Start<'_>,
    notes: &mut Notes,
) -> Option<u32>
    requires link { (0 < link) × (link ≤ length table.nodes.now) }
    requires bounds { InBounds (kind_at table.nodes.now link) }
    requires rows { AreRowsAt table link rows }
    ensures end { IfSome result (λ end. WalksFrom (kind_at table.entry.nodes.now link) start.entry end notes.new.least) }
    ensures falls { IsTrue notes.new.least → IsTrue notes.old.least }
{
    let body = start.body;
    let at = start.at;
    are_octets(body);
    // Tested against the body once, at the field's end.
    let mut skip: u64 = 0;
    let mut count: u32 = 0;
    while 128 * (count as usize) < rows.start.len() {
        let place = (at + count) as usize;
        if place >= body.len() {
            return None;
        }
        let octet = body[place];
        let first = rows.start[128 * count as usize + (octet >> 1) as usize];
        if first == NO_ROW {
            return None;
        }
        let step = rows.steps[first as usize];
        if step.link != 0 {
            return None;
        }
        skip += step.skip as u64;
        count += 1;
        if octet % 2 == 0 {
            let end = (at + count) as u64 + skip;
            if end > body.len() as u64 {
                return None;
            }
            note_field(body, at, at + count, notes);
            return Some(end as u32);
        }
    }
    None
}

/// The octet after a compound of these slots that begins at octet `at`, by their rows. None says nothing. Inlined into the loops over
/// records it would take their registers; as it isn't, the body and the octet are passed by themselves, not through memory.
#[inline(never)]
fn walk_subitems(
    slots: LinkedSlots<'_>,
    rows: Rows<'_>,
    body: &[u8],
    at: u32,
    notes: &mut Notes,
) -> Option<u32>
    requires rows { AreRows slots.table.octets.now slots.links.now rows.start.now rows.steps.now }
    requires body { length body.now ≤ longest_body }
    requires at { at ≤ length body.now }
    ensures end { IfSome result (λ end. WalksKind (slots_kind slots.entry) body.now at end notes.new.least) }
    ensures falls { IsTrue notes.new.least → IsTrue notes.old.least }
{
    let walked = walk_by_rows(&ByNodes, slots, rows, Start { body, at }, notes)?;
    Some(walked.end)
}

/// The octet after a compound, by the rows of its slots, step by step. None says nothing.
#[inline(always)]
fn step_compound(
    table: Table<'_>,
    link: u32,
    rows: Rows<'_>,
    start: Start<'_>,
    notes: &mut Notes,
) -> Option<u32>
    requires link { (0 < link) × (link ≤ length table.nodes.now) }
    requires bounds { InBounds (kind_at table.nodes.now link) }
    requires rows { AreRowsAt table link rows }
    ensures end { IfSome result (λ end. WalksFrom (kind_at table.entry.nodes.now link) start.entry end notes.new.least) }
    ensures falls { IsTrue notes.new.least → IsTrue notes.old.least }
{
    let Node::Compound { mask, slots } = &table.nodes[link as usize - 1] else {
        return None;
    };
    let links = slots.as_slice();
    let slots = LinkedSlots { table, mask, links };
    walk_subitems(slots, rows, start.body, start.at, notes)
}

/// The octet after an item: a compound is walked over by its rows, if it has some, and what these decline is judged by nodes.
#[inline(always)]
pub(crate) fn walk_variable(
    table: Table<'_>,
    compounds: &[SlotRows],
    link: u32,
    start: Start<'_>,
    notes: &mut Notes,
) -> Option<u32>
    requires compounds { EachRows table.octets.now table.nodes.now compounds.now }
    requires link { (0 < link) × (link ≤ length table.nodes.now) }
    requires bounds { InBounds (kind_at table.nodes.now link) }
    ensures end { IfSome result (λ end. WalksFrom (kind_at table.entry.nodes.now link) start.entry end notes.new.least) }
    ensures fault { IfNone result (FailsFrom (kind_at table.entry.nodes.now link) start.entry notes.new.fault) }
    ensures falls { IsTrue notes.new.least → IsTrue notes.old.least }
{
    if let Some(rows) = compound_rows(table, compounds, link) {
        let before = notes.least;
        let end = skip_compound(table, link, rows, start, notes);
        if end.is_some() {
            return end;
        }
        let end = step_compound(table, link, rows, start, notes);
        if end.is_some() {
            return end;
        }
        notes.least = before;
    }
    walk_node(table.nodes, link, start, notes)
}

/// The same, but that an item of fixed octets is passed over without a look at its node.
#[inline(always)]
pub(crate) fn walk_record_item(
    table: Table<'_>,
    compounds: &[SlotRows],
    link: u32,
    start: Start<'_>,
    notes: &mut Notes,
) -> Option<u32>
    requires compounds { EachRows table.octets.now table.nodes.now compounds.now }
    requires link { (0 < link) × (link ≤ length table.nodes.now) }
    requires bounds { InBounds (kind_at table.nodes.now link) }
    ensures end { IfSome result (λ end. WalksFrom (kind_at table.entry.nodes.now link) start.entry end notes.new.least) }
    ensures fault { IfNone result (FailsFrom (kind_at table.entry.nodes.now link) start.entry notes.new.fault) }
    ensures falls { IsTrue notes.new.least → IsTrue notes.old.least }
{
    if let Some(end) = octets_end(table, link, start) {
        return Some(end);
    }
    walk_variable(table, compounds, link, start, notes)
}

/// Walks over compounds by their rows, over values whose octets tell where they end without their nodes, and over the rest by these.
/// There is an extent for each node.
#[derive(Clone, Copy)]
pub(crate) struct ByRows<'r> {
    pub(crate) compounds: &'r [SlotRows],
    pub(crate) extents: &'r [Extent],
}

impl<'r> ByRows<'r> {
    /// That of a codec. None comes where its nodes have no extents.
    #[inline(always)]
    pub(crate) fn of(codec: &'r Codec) -> Option<ByRows<'r>>
        ensures { IfSome result (AreValueRows codec.now) }
    {
        let extents = codec.nodes.extents();
        if extents.len() < codec.nodes.count() as usize {
            return None;
        }
        Some(ByRows {
            compounds: codec.nodes.compound_rows(),
            extents,
        })
    }
}

impl ValueWalk for ByRows<'_> {
    ghost use Rattle.ax_codec.specs.Extents.{AreExtents};

    ghost fits = { λ s nodes octets. EachRows octets nodes s.compounds.now × AreExtents nodes s.extents.now × (length nodes ≤ length s.extents.now) };

    #[inline(always)]
    fn walk_value(
        &self,
        table: Table<'_>,
        link: u32,
        start: Start<'_>,
        notes: &mut Notes,
    ) -> Option<u32> {
        let end = extent_end(self.extents[link as usize - 1], start);
        if end.is_some() {
            return end;
        }
        walk_variable(table, self.compounds, link, start, notes)
    }
}
