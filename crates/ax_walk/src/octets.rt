//! The walk over a body's octets by the nodes of a table.
ghost use Rattle.std.specs.Prelude.{◌≡◌, ◌+◌, ◌*◌, ◌%◌, ◌<◌, ◌≤◌, length, get_or, IfSome, IfNone, Bool, IsTrue};
ghost use Rattle.ax_bits.specs.Bits.{AreBits};
ghost use Rattle.ax_format.specs.InBounds.{InBounds};
ghost use Rattle.ax_format.specs.Sizes.{longest_body};
ghost use Rattle.ax_format.specs.Tree.{counted};
ghost use Rattle.ax_codec.specs.Table.{IsTable, IsRecordTable, LinksWithin, kind_at, record_kind_at};
ghost use Rattle.ax_walk.specs.Fields.{IsFieldTold};
ghost use Rattle.ax_walk.specs.Marked.{MarksDefined, WalksMarked, FailsMarked, slots_kind};
ghost use Rattle.ax_walk.specs.RecordRows.{AreRecordRows, octets_to, own_kind};
ghost use Rattle.ax_walk.specs.Rows.{AreSlots};
ghost use Rattle.ax_walk.specs.Walking.{WalksKind, FailsKind, WalksFrom, FailsFrom, NeedsLast, parts_kind};

use crate::by_rows::walk_by_rows;
use crate::notes::{Notes, fail};
use crate::record::Walked;
use crate::record_rows::RecordRows;
use crate::start::{Start, are_octets};
use crate::table::{LinkedSlots, Table};
use crate::units::{first_part_end, run, walk_explicit, walk_parts, walk_run};
use ax_codec::{Codec, Node};
use ax_format::{BodyCause, Counter, LastPart};
use ax_fspec::{Presence, SlotMask, count_at, read_presence, run_end};

/// The octet after the record that begins at octet `at`.
#[inline]
pub fn walk_record(codec: &Codec, body: &[u8], at: u32, notes: &mut Notes) -> Option<u32>
    requires body { length body.now ≤ longest_body }
    requires at { at ≤ length body.now }
    ensures end { IfSome result (λ end. WalksKind (record_kind_at codec.now.nodes codec.now.slots) body.now at end notes.new.least) }
    ensures fault { IfNone result (FailsKind (record_kind_at codec.now.nodes codec.now.slots) body.now at notes.new.fault) }
    ensures falls { IsTrue notes.new.least → IsTrue notes.old.least }
{
    let walked = walk_with(&RecordRows::of(codec), Start { body, at }, notes)?;
    Some(walked.end)
}

/// The same, with what the codec's records are walked over by: what is by rows declined is judged by nodes, from the record's start.
#[inline(always)]
pub(crate) fn walk_with(
    records: &RecordRows<'_>,
    start: Start<'_>,
    notes: &mut Notes,
) -> Option<Walked>
    requires rows { AreRecordRows records.now }
    ensures end { IfSome result (λ walked. WalksFrom (own_kind records.now) start.entry walked.end notes.new.least) }
    ensures field { IfSome result (λ walked. IsFieldTold records.now.codec.now (octets_to start.entry walked.end) walked.field) }
    ensures fault { IfNone result (FailsFrom (own_kind records.now) start.entry notes.new.fault) }
    ensures falls { IsTrue notes.new.least → IsTrue notes.old.least }
{
    let before = notes.least;
    if let Some(by) = &records.by_rows {
        let walked = walk_by_rows(&by.values, records.slots, by.rows, start, notes);
        if walked.is_some() {
            return walked;
        }
        notes.least = before;
    }
    let end = walk_slots(records.slots, start, notes)?;
    Some(Walked { field: 0, end })
}

/// The octet after a record of these slots. Inlined into the loops over records it would take their registers.
#[inline(never)]
fn walk_slots(slots: LinkedSlots<'_>, start: Start<'_>, notes: &mut Notes) -> Option<u32>
    ensures end { IfSome result (λ end. WalksFrom (slots_kind slots.entry) start.entry end notes.new.least) }
    ensures fault { IfNone result (FailsFrom (slots_kind slots.entry) start.entry notes.new.fault) }
    ensures falls { IsTrue notes.new.least → IsTrue notes.old.least }
{
    let body = start.body;
    are_octets(body);
    let mut marked = Presence::empty();
    match read_presence(slots.mask, body, start.at, &mut marked) {
        Ok(here) => {
            note_field(body, start.at, here, notes);
            walk_items(slots, marked, Start { body, at: here }, notes)
        }
        Err(fault) => {
            notes.fault = fault;
            None
        }
    }
}

/// The octet after the items of the marked slots, of which the first begins at the start.
#[inline]
fn walk_items(
    slots: LinkedSlots<'_>,
    marked: Presence,
    start: Start<'_>,
    notes: &mut Notes,
) -> Option<u32>
    requires marks { AreBits marked }
    requires clear { MarksDefined slots.table.nodes.now slots.links.now marked }
    ensures end { IfSome result (λ end. WalksMarked slots.entry.table.nodes.now slots.entry.links.now marked start.entry end notes.new.least) }
    ensures fault { IfNone result (FailsMarked slots.entry.table.nodes.now slots.entry.links.now marked start.entry notes.new.fault) }
    ensures falls { IsTrue notes.new.least → IsTrue notes.old.least }
{
    let body = start.body;
    let mut left = marked;
    let mut here = start.at;
    while let Some(slot) = left.take_first() {
        let link = slots.links[slot as usize - 1];
        here = walk_item(slots.table, link, Start { body, at: here }, notes)?;
    }
    Some(here)
}

/// The octet after the value at the start, where the kind that a link leads to is a fixed one whose octets are all there. There is
/// no look at the node.
#[inline(always)]
pub(crate) fn octets_end(table: Table<'_>, link: u32, start: Start<'_>) -> Option<u32>
    requires link { (0 < link) × (link ≤ length table.nodes.now) }
    requires bounds { InBounds (kind_at table.nodes.now link) }
    ensures { IfSome result (λ end. (least : Bool) → WalksFrom (kind_at table.entry.nodes.now link) start.entry end least) }
{
    let body = start.body;
    let run_octets = table.octets[link as usize - 1];
    if run_octets > 0 && run_octets as usize <= body.len() - start.at as usize {
        return Some(start.at + run_octets);
    }
    None
}

/// The octet after an item of a record.
#[inline(always)]
pub(crate) fn walk_item(
    table: Table<'_>,
    link: u32,
    start: Start<'_>,
    notes: &mut Notes,
) -> Option<u32>
    requires link { (0 < link) × (link ≤ length table.nodes.now) }
    requires bounds { InBounds (kind_at table.nodes.now link) }
    ensures end { IfSome result (λ end. WalksFrom (kind_at table.entry.nodes.now link) start.entry end notes.new.least) }
    ensures fault { IfNone result (FailsFrom (kind_at table.entry.nodes.now link) start.entry notes.new.fault) }
    ensures falls { IsTrue notes.new.least → IsTrue notes.old.least }
{
    if let Some(end) = octets_end(table, link, start) {
        return Some(end);
    }
    walk_node(table.nodes, link, start, notes)
}

/// The octet after an item, by its node: only counted items, wide ones and compounds are left to a call.
#[inline(always)]
pub(crate) fn walk_node(
    nodes: &[Node],
    link: u32,
    start: Start<'_>,
    notes: &mut Notes,
) -> Option<u32>
    requires table { IsTable nodes.now }
    requires link { (0 < link) × (link ≤ length nodes.now) }
    requires bounds { InBounds (kind_at nodes.now link) }
    ensures end { IfSome result (λ end. WalksFrom (kind_at nodes.now link) start.entry end notes.new.least) }
    ensures fault { IfNone result (FailsFrom (kind_at nodes.now link) start.entry notes.new.fault) }
    ensures falls { IsTrue notes.new.least → IsTrue notes.old.least }
{
    match &nodes[link as usize - 1] {
        Node::Element { width } => run(start, *width, notes),
        Node::Group { width, .. } => run(start, *width, notes),
        Node::Part { .. } => None,
        Node::Extended { last, parts } => {
            walk_extended(nodes, *last, parts.as_slice(), start, notes)
        }
        Node::Counted { counter, inner } => { walk_counted(nodes, *counter, *inner, start, notes) }
        Node::ByFx { inner } => walk_run(nodes, *inner, start, notes),
        Node::Explicit => walk_explicit(start, notes),
        Node::Compound { mask, slots } => {
            walk_compound(nodes, mask, slots.as_slice(), start, notes)
        }
    }
}

/// The octet after an extended item: without a call where no part follows the first.
#[inline(always)]
fn walk_extended(
    nodes: &[Node],
    last: LastPart,
    parts: &[u32],
    start: Start<'_>,
    notes: &mut Notes,
) -> Option<u32>
    requires table { IsTable nodes.now }
    requires links { LinksWithin (length nodes.now) parts.now }
    requires bounds { InBounds (parts_kind nodes.now last parts.now) }
    ensures end { IfSome result (λ end. WalksFrom (parts_kind nodes.now last parts.now) start.entry end notes.new.least) }
    ensures fault { IfNone result (FailsFrom (parts_kind nodes.now last parts.now) start.entry notes.new.fault) }
    ensures least { notes.new.least ≡ notes.old.least }
{
    let end = first_part_end(nodes, last, parts, start);
    if end.is_some() {
        return end;
    }
    walk_parts(nodes, last, parts, start, notes)
}

/// The octet after the value at the start, where the kind that a link leads to is a fixed one whose octets are all there. It spares
/// most subitems and occurrences a call.
#[inline(always)]
fn fixed_end(nodes: &[Node], link: u32, start: Start<'_>) -> Option<u32>
    requires table { IsTable nodes.now }
    requires link { (0 < link) × (link ≤ length nodes.now) }
    requires bounds { InBounds (kind_at nodes.now link) }
    ensures { IfSome result (λ end. (least : Bool) → WalksFrom (kind_at nodes.now link) start.entry end least) }
{
    match &nodes[link as usize - 1] {
        Node::Element { width } => run_end(start.body, start.at, *width),
        Node::Group { width, .. } => run_end(start.body, start.at, *width),
        _ => None,
    }
}

/// The octet after the value that begins at octet `at`, of the kind that a link leads to.
#[cycle(walk)]
pub fn walk(nodes: &[Node], link: u32, body: &[u8], at: u32, notes: &mut Notes) -> Option<u32>
    requires table { IsTable nodes.now }
    requires link { (0 < link) × (link ≤ length nodes.now) }
    requires bounds { InBounds (kind_at nodes.now link) }
    requires body { length body.now ≤ longest_body }
    requires at { at ≤ length body.now }
    ensures end { IfSome result (λ end. WalksKind (kind_at nodes.now link) body.now at end notes.new.least) }
    ensures fault { IfNone result (FailsKind (kind_at nodes.now link) body.now at notes.new.fault) }
    ensures falls { IsTrue notes.new.least → IsTrue notes.old.least }
{
    let start = Start { body, at };
    match &nodes[link as usize - 1] {
        Node::Element { width } => run(start, *width, notes),
        Node::Group { width, .. } => run(start, *width, notes),
        Node::Part { .. } => None,
        Node::Extended { last, parts } => {
            walk_parts(nodes, *last, parts.as_slice(), start, notes)
        }
        Node::Counted { counter, inner } => walk_counted(nodes, *counter, *inner, start, notes),
        Node::ByFx { inner } => walk_run(nodes, *inner, start, notes),
        Node::Explicit => walk_explicit(start, notes),
        Node::Compound { mask, slots } => {
            walk_compound(nodes, mask, slots.as_slice(), start, notes)
        }
    }
}

/// The octet after a counted or wide item. Inlined into the loops over records it would take their registers.
#[cycle(walk)]
#[inline(never)]
fn walk_counted(
    nodes: &[Node],
    size: Counter,
    inner: u32,
    start: Start<'_>,
    notes: &mut Notes,
) -> Option<u32>
    requires table { IsTable nodes.now }
    requires link { (0 < inner) × (inner ≤ length nodes.now) }
    requires bounds { InBounds (kind_at nodes.now inner) }
    ensures end { IfSome result (λ end. WalksFrom (counted size (kind_at nodes.now inner)) start.entry end notes.new.least) }
    ensures fault { IfNone result (FailsFrom (counted size (kind_at nodes.now inner)) start.entry notes.new.fault) }
    ensures falls { IsTrue notes.new.least → IsTrue notes.old.least }
{
    let body = start.body;
    let Some(count) = count_at(body, start.at, size) else {
        fail(notes, BodyCause::RunsOut, 8 * start.at);
        return None;
    };
    let mut here = start.at + size.octets();
    for _ in 0..count {
        if let Some(end) = fixed_end(nodes, inner, Start { body, at: here }) {
            here = end;
            continue;
        }
        here = walk(nodes, inner, body, here, notes)?;
    }
    Some(here)
}

/// The octet after a compound of these slots.
#[cycle(walk)]
fn walk_compound(
    nodes: &[Node],
    mask: &SlotMask,
    slots: &[u32],
    start: Start<'_>,
    notes: &mut Notes,
) -> Option<u32>
    requires table { IsTable nodes.now }
    requires slots { IsRecordTable nodes.now slots.now mask.now }
    ensures end { IfSome result (λ end. WalksFrom (record_kind_at nodes.now slots.now) start.entry end notes.new.least) }
    ensures fault { IfNone result (FailsFrom (record_kind_at nodes.now slots.now) start.entry notes.new.fault) }
    ensures falls { IsTrue notes.new.least → IsTrue notes.old.least }
{
    let body = start.body;
    are_octets(body);
    let mut marked = Presence::empty();
    match read_presence(mask, body, start.at, &mut marked) {
        Ok(here) => {
            note_field(body, start.at, here, notes);
            walk_marked(nodes, slots, marked, Start { body, at: here }, notes)
        }
        Err(fault) => {
            notes.fault = fault;
            None
        }
    }
}

/// Notes whether the presence field from octet `at` up to octet `here` needs its last octet.
#[inline]
pub(crate) fn note_field(body: &[u8], at: u32, here: u32, notes: &mut Notes)
    requires { (at < here) × (here ≤ length body.now) }
    ensures needed { IsTrue notes.new.least → NeedsLast body.now at here }
    ensures falls { IsTrue notes.new.least → IsTrue notes.old.least }
{
    if here - at > 1 && body[here as usize - 1] == 0 {
        notes.least = false;
    }
}

/// The octet after the subitems of the marked slots, of which the first begins at the start.
#[cycle(walk)]
fn walk_marked(
    nodes: &[Node],
    slots: &[u32],
    marked: Presence,
    start: Start<'_>,
    notes: &mut Notes,
) -> Option<u32>
    requires table { IsTable nodes.now }
    requires slots { AreSlots nodes.now slots.now }
    requires marks { AreBits marked }
    requires clear { MarksDefined nodes.now slots.now marked }
    ensures end { IfSome result (λ end. WalksMarked nodes.now slots.now marked start.entry end notes.new.least) }
    ensures fault { IfNone result (FailsMarked nodes.now slots.now marked start.entry notes.new.fault) }
    ensures falls { IsTrue notes.new.least → IsTrue notes.old.least }
{
    let body = start.body;
    let mut left = marked;
    let mut here = start.at;
    while let Some(slot) = left.take_first() {
        let link = slots[slot as usize - 1];
        if let Some(end) = fixed_end(nodes, link, Start { body, at: here }) {
            here = end;
            continue;
        }
        here = walk(nodes, link, body, here, notes)?;
    }
    Some(here)
}
