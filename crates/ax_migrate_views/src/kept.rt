//! Records that stay as they are: those of which each item does, and of which nothing is lost.
ghost use Rattle.std.specs.Prelude.{◌≡◌, ◌<◌, ◌≤◌, [], ◌∷◌, false, IsTrue, IfOk, IfSome, get_or, length};
ghost use Rattle.ax_relation.specs.PlainMoves.{moves_tree};
ghost use Rattle.ax_migrate_views.specs.Kept.{HasFewThere, IsElsewhere, IsKeptAt, IsPast, KeepsRecords, OfEach, OthersStay, ShortStay, StaysAll, StaysShort};
ghost use Rattle.ax_format.specs.Sizes.{longest_body};
ghost use Rattle.ax_codec.specs.Table.{IsTable, SlotLinksWithin};
ghost use Rattle.ax_walk.specs.InPlace.{EndsField};
ghost use Rattle.ax_walk.specs.RecordRows.{AreRecordRows};

use ax_codec::{Codec, Node};
use ax_fspec::{MarkedItems, Presence, read_presence};
use ax_moves::{LostKey, SLOTS, are_ordered, keeps, own_move};
use ax_relation::{Move, Moves};
use ax_walk::{Notes, RecordRows, marked_item, record_by_rows};
use std::alloc::{AllocError, Global};

/// By what records are known to stay as they are.
pub(crate) struct KeptSlots {
    /// The slots of which an item may not stay as it is, or may be lost in part.
    pub(crate) leaving: Presence,
    /// By slot, from 0 on: its items of fewer octets than this stay as they are, and nothing of them is lost.
    pub(crate) short: Vec<u32>,
}

impl Drop for KeptSlots {
    fn drop(self) {
        let KeptSlots {
            leaving: _leaving,
            short: _short,
        } = self;
    }
}

/// Whether each item of a slot is sure to keep its slot and its canonical octets as it moves.
fn stays_all(nodes: &[Node], links: &[u32], moves: &[Move], ordered: bool, slot: u32) -> bool
    requires table { IsTable nodes.now }
    requires links { SlotLinksWithin (length nodes.now) links.now }
    requires slot { 1 ≤ slot }
    ensures { IsTrue result → IsTrue ordered × StaysAll nodes.now links.now (moves_tree moves.now) slot }
{
    match own_move(links, moves, ordered, slot) {
        Some(one) => keeps(nodes, links[slot as usize - 1], one.parts, &one.below),
        None => false,
    }
}

/// Extended items of fewer octets than this keep their slot and their canonical octets as they move: they have no more parts
/// than move. 0 for a slot of another kind.
fn moving_octets(nodes: &[Node], links: &[u32], moves: &[Move], ordered: bool, slot: u32) -> u32
    requires table { IsTable nodes.now }
    requires links { SlotLinksWithin (length nodes.now) links.now }
    requires slot { 1 ≤ slot }
    ensures { 0 < result → IsTrue ordered × StaysShort nodes.now links.now (moves_tree moves.now) slot result }
{
    let Some(one) = own_move(links, moves, ordered, slot) else {
        return 0;
    };
    let link = links[slot as usize - 1];
    match &nodes[link as usize - 1] {
        Node::Extended { .. } => one.parts.saturating_add(1),
        _ => 0,
    }
}

/// Whether a key is that of an item of this slot or of something in it.
fn is_named(lost: &[LostKey<'_>], slot: u32) -> bool
    ensures { result ≡ false → OfEach (IsElsewhere slot) lost.now }
{
    for index in 0..lost.len() {
        if lost[index].path.old.frn == slot {
            return true;
        }
    }
    false
}

/// An item of the slot of fewer octets than this, which are at most `most`, hasn't what the key names: that is no key of the
/// slot, or a part of the item itself, each part having an octet at least. 0 for another key.
fn octets_without(key: &LostKey<'_>, slot: u32, most: u32) -> u32
    ensures least { result ≤ most }
    ensures past { IsPast slot result key.now }
{
    if key.path.old.frn != slot {
        return most;
    }
    if !key.path.old.steps.as_slice().is_empty() {
        return 0;
    }
    match key.path.part {
        Some(part) => most.min(part.saturating_add(1)),
        None => 0,
    }
}

/// An item of the slot of fewer octets than this, which are at most `most`, hasn't what any of the keys names.
fn lossless_octets(lost: &[LostKey<'_>], slot: u32, most: u32) -> u32
    ensures least { result ≤ most }
    ensures past { OfEach (IsPast slot result) lost.now }
{
    let mut octets = most;
    for index in 0..lost.len() {
        octets = octets_without(&lost[index], slot, octets);
    }
    octets
}

/// The slots of which an item may not stay as it is, or may be lost in part.
fn leaving_items(nodes: &[Node], links: &[u32], moves: &[Move], lost: &[LostKey<'_>]) -> Presence
    requires table { IsTable nodes.now }
    requires links { SlotLinksWithin (length nodes.now) links.now }
    ensures { OthersStay nodes.now links.now (moves_tree moves.now) lost.now 127 result }
{
    let ordered = are_ordered(moves);
    let mut leaving = Presence::empty();
    for slot in 1..SLOTS {
        if stays_all(nodes, links, moves, ordered, slot) && !is_named(lost, slot) {
            continue;
        }
        leaving.mark(slot);
    }
    leaving
}

/// The octets of slot 0, of which no item stays.
fn first_short(alloc: Global) -> Result<Vec<u32>, AllocError>
    ensures { IfOk result (λ made. made.items ≡ 0 ∷ []) }
{
    let mut short = Vec::new(alloc);
    short.push(0)?;
    Ok(short)
}

/// By slot, from 0 on: its items of fewer octets than this stay as they are, and nothing of them is lost.
fn short_items(
    alloc: Global,
    nodes: &[Node],
    links: &[u32],
    moves: &[Move],
    lost: &[LostKey<'_>],
) -> Result<Vec<u32>, AllocError>
    requires table { IsTable nodes.now }
    requires links { SlotLinksWithin (length nodes.now) links.now }
    ensures { IfOk result (λ made. ShortStay nodes.now links.now (moves_tree moves.now) lost.now 127 made.items) }
{
    let ordered = are_ordered(moves);
    let mut short = first_short(alloc)?;
    for slot in 1..SLOTS {
        let most = moving_octets(nodes, links, moves, ordered, slot);
        short.push(lossless_octets(lost, slot, most))?;
    }
    Ok(short)
}

/// By what the records of a codec are known to stay as they are.
pub(crate) fn kept_slots(
    alloc: Global,
    codec: &Codec,
    moves: &Moves,
    lost: &[LostKey<'_>],
) -> Result<KeptSlots, AllocError>
    ensures { IfOk result (KeepsRecords codec.now moves.now lost.now) }
{
    let nodes = codec.nodes.as_slice();
    let links = codec.slots.as_slice();
    let moves = moves.as_slice();
    let leaving = leaving_items(nodes, links, moves, lost);
    let short = short_items(alloc, nodes, links, moves, lost)?;
    Ok(KeptSlots { leaving, short })
}

/// Whether the item of the slot, if one is given, has fewer octets than `short` has for it. What stands behind it isn't looked at.
#[inline]
fn is_short(
    codec: &Codec,
    items: MarkedItems,
    body: &[u8],
    slot: Option<u32>,
    short: &[u32],
) -> bool
    requires body { length body.now ≤ longest_body }
    requires field { EndsField codec.now body.now items.begin items.marked }
    requires short { length short.now ≡ 127 }
    requires slot { IfSome slot (λ s. s < 127) }
    ensures { IsTrue result → IfSome slot (λ s. HasFewThere codec.now items.marked body.now items.begin s (get_or short.now s 0)) }
{
    let Some(slot) = slot else {
        return true;
    };
    let few = short[slot as usize];
    if few == 0 {
        return false;
    }
    match marked_item(codec, items.marked, body, items.begin, slot) {
        Some(item) => item.octets().len() < few as usize,
        None => false,
    }
}

/// The octet after the record at octet `at`, if it is sure to stay as it is and to lose nothing: no slot but one of those that may
/// not stay is marked, and its item is short. That is known before the record is walked over. None says nothing.
#[inline]
pub(crate) fn kept_end(rows: &RecordRows<'_>, kept: &KeptSlots, body: &[u8], at: u32) -> Option<u32>
    requires rows { AreRecordRows rows.now }
    requires short { length kept.now.short.items ≡ 127 }
    requires body { length body.now ≤ longest_body }
    requires at { at ≤ length body.now }
    ensures { IfSome result (IsKeptAt rows.now.codec.now kept.now body.now at) }
{
    let mut marked = Presence::empty();
    let Ok(begin) = read_presence(&rows.codec.mask, body, at, &mut marked) else {
        return None;
    };
    let short = kept.short.as_slice();
    let mut leaving = marked.common(&kept.leaving);
    let first = leaving.take_first();
    let items = MarkedItems { marked, begin };
    if leaving.take_first().is_some() || !is_short(rows.codec, items, body, first, short) {
        return None;
    }
    let mut notes = Notes::new();
    let Some(found) = record_by_rows(rows, body, at, &mut notes) else {
        return None;
    };
    if !notes.least {
        return None;
    }
    Some(found.1)
}
