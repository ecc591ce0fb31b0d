//! Values of marked slots, found after those of the slots before.
ghost use Rattle.std.specs.Prelude.{◌≡◌, ◌+◌, ◌-◌, ◌*◌, ◌/◌, ◌<◌, ◌≤◌, false, length, get_or, IfSome, IfNone, IsTrue, option_map, option_and_then, ℕ};
ghost use Rattle.ax_bits.specs.Bits.{AreBits};
ghost use Rattle.ax_fspec.specs.Marks.{seven};
ghost use Rattle.ax_fspec.specs.declared.mask.SlotMask.{SlotMask};
ghost use Rattle.ax_format.specs.InBounds.{InBounds};
ghost use Rattle.ax_format.specs.Presence.{octets_needed};
ghost use Rattle.ax_format.specs.Sizes.{longest_body};
ghost use Rattle.ax_codec.specs.Meaning.{meanings, linked_slots};
ghost use Rattle.ax_codec.specs.Table.{SlotLinksWithin, kind_at, record_kind_at};
ghost use Rattle.ax_fspec.specs.Reading.{IsMaskOf};
ghost use Rattle.ax_format.specs.At.{slot_value, number_at};
ghost use Rattle.ax_walk.specs.InPlace.{EndsField, StandsInPlace};
ghost use Rattle.ax_walk.specs.Marked.{HasFoundValue, MarksDefined, StandsFound};
ghost use Rattle.ax_walk.specs.Placing.{IsMarkedItem};
ghost use Rattle.ax_walk.specs.Rows.{AreSlots, IsField};
ghost use Rattle.ax_walk.specs.Shown.{item_value, IsOfSlot};
ghost use Rattle.ax_walk.specs.Values.{IsOne, value_in, entries_in, SpellsAny};
ghost use Rattle.ax_walk.specs.Walking.{WalksKind, FailsKind};

use crate::by_rows::field_octets;
use crate::item::ItemView;
use crate::notes::Notes;
use crate::octets::{octets_end, walk_node};
use crate::start::Start;
use crate::table::Table;
use ax_codec::Codec;
use ax_fspec::{Presence, SlotMask, read_presence};

/// The last slot of the first presence octet.
pub(crate) const EARLY: u32 = 7;

/// The value of a slot in octets that spell a value of these slots, in its own place there: after the presence field and
/// the values of the marked slots before. None comes exactly where the slot isn't marked.
#[inline(always)]
pub(crate) fn find<'c, 'a>(
    codec: &'c Codec,
    mask: &SlotMask,
    slots: &[u32],
    body: &'a [u8],
    slot: u32,
) -> Option<ItemView<'c, 'a>>
    requires links { SlotLinksWithin (length codec.now.nodes) slots.now }
    requires mask { IsMaskOf (linked_slots (meanings codec.now.nodes) slots.now) mask.now }
    requires bounds { InBounds (record_kind_at codec.now.nodes slots.now) }
    requires one { IsOne (record_kind_at codec.now.nodes slots.now) body.now }
    ensures value { option_map item_value result ≡ slot_value slot (entries_in (value_in (record_kind_at codec.now.nodes slots.now) body.now)) }
    ensures place { IfSome result (IsOfSlot codec.now slots.now slot) }
    ensures window { IfSome result (λ item. StandsInPlace codec.now.nodes slots.now slot body.now item.body.now) }
{
    if slot <= EARLY {
        if let Some(at) = field_octets(Start { body, at: 0 }, mask.count) {
            return find_early(codec, slots, body, at, slot);
        }
    }
    find_late(codec, mask, slots, body, slot)
}

/// The same, by the whole presence field.
#[inline(never)]
pub(crate) fn find_late<'c, 'a>(
    codec: &'c Codec,
    mask: &SlotMask,
    slots: &[u32],
    body: &'a [u8],
    slot: u32,
) -> Option<ItemView<'c, 'a>>
    requires links { SlotLinksWithin (length codec.now.nodes) slots.now }
    requires mask { IsMaskOf (linked_slots (meanings codec.now.nodes) slots.now) mask.now }
    requires bounds { InBounds (record_kind_at codec.now.nodes slots.now) }
    requires one { IsOne (record_kind_at codec.now.nodes slots.now) body.now }
    ensures value { option_map item_value result ≡ slot_value slot (entries_in (value_in (record_kind_at codec.now.nodes slots.now) body.now)) }
    ensures place { IfSome result (IsOfSlot codec.now slots.now slot) }
    ensures window { IfSome result (λ item. StandsInPlace codec.now.nodes slots.now slot body.now item.body.now) }
{
    let mut marked = Presence::empty();
    match read_presence(mask, body, 0, &mut marked) {
        Ok(here) => find_marked(codec, slots, marked, Start { body, at: here }, slot),
        Err(_) => None,
    }
}

/// Whether the first presence octet marks a slot from 1 to 7.
#[inline(always)]
fn marks_slot(octet: u8, slot: u32) -> bool
    requires { (1 ≤ slot) × (slot ≤ 7) }
    ensures marked { IsTrue result → get_or (seven (octet / 2)) (slot - 1) 0 ≡ 1 }
    ensures unmarked { result ≡ false → get_or (seven (octet / 2)) (slot - 1) 0 ≡ 0 }
{
    octet >> (8 - slot) & 1 == 1
}

/// Whether a slot is the first one that the first presence octet marks.
#[inline(always)]
fn marks_first(octet: u8, slot: u32) -> bool
    requires { slot ≤ 7 }
    ensures some { IsTrue result → 1 ≤ slot }
    ensures marked { IsTrue result → get_or (seven (octet / 2)) (slot - 1) 0 ≡ 1 }
    ensures none { IsTrue result → (i : ℕ) → i + 1 < slot → get_or (seven (octet / 2)) i 0 ≡ 0 }
{
    octet as u32 >> (8 - slot) == 1
}

/// The same for a slot of the first presence octet, where the first item begins at octet `at`: that octet alone is looked at, and it
/// isn't judged again. Where the slot is the first marked one, and has fixed octets, there is no call.
#[inline(always)]
pub(crate) fn find_early<'c, 'a>(
    codec: &'c Codec,
    slots: &[u32],
    body: &'a [u8],
    at: u32,
    slot: u32,
) -> Option<ItemView<'c, 'a>>
    requires links { SlotLinksWithin (length codec.now.nodes) slots.now }
    requires bounds { InBounds (record_kind_at codec.now.nodes slots.now) }
    requires one { IsOne (record_kind_at codec.now.nodes slots.now) body.now }
    requires field { IsField body.now 0 at }
    requires few { at ≤ octets_needed (length slots.now) }
    requires slot { slot ≤ 7 }
    ensures value { option_map item_value result ≡ slot_value slot (entries_in (value_in (record_kind_at codec.now.nodes slots.now) body.now)) }
    ensures place { IfSome result (IsOfSlot codec.now slots.now slot) }
    ensures window { IfSome result (λ item. StandsInPlace codec.now.nodes slots.now slot body.now item.body.now) }
{
    if marks_first(body[0], slot) {
        let link = slots[slot as usize - 1];
        if let Some(end) = octets_end(Table::of(codec), link, Start { body, at }) {
            return Some(ItemView {
                codec,
                link,
                by_fx: false,
                body: &body[at as usize..end as usize],
            });
        }
    }
    find_after(codec, slots, body, at, slot)
}

/// The same, slot after slot.
#[inline(never)]
fn find_after<'c, 'a>(
    codec: &'c Codec,
    slots: &[u32],
    body: &'a [u8],
    at: u32,
    slot: u32,
) -> Option<ItemView<'c, 'a>>
    requires links { SlotLinksWithin (length codec.now.nodes) slots.now }
    requires bounds { InBounds (record_kind_at codec.now.nodes slots.now) }
    requires one { IsOne (record_kind_at codec.now.nodes slots.now) body.now }
    requires field { IsField body.now 0 at }
    requires few { at ≤ octets_needed (length slots.now) }
    requires slot { slot ≤ 7 }
    ensures value { option_map item_value result ≡ slot_value slot (entries_in (value_in (record_kind_at codec.now.nodes slots.now) body.now)) }
    ensures place { IfSome result (IsOfSlot codec.now slots.now slot) }
    ensures window { IfSome result (λ item. StandsInPlace codec.now.nodes slots.now slot body.now item.body.now) }
{
    let octet = body[0];
    let mut notes = Notes::new();
    let mut here = at;
    for next in 1..slot + 1 {
        if !marks_slot(octet, next) {
            continue;
        }
        let link = slots[next as usize - 1];
        let end = walk_of(codec, link, body, here, &mut notes)?;
        if next == slot {
            return Some(ItemView {
                codec,
                link,
                by_fx: false,
                body: &body[here as usize..end as usize],
            });
        }
        here = end;
    }
    None
}

/// The item of a slot of a record whose presence field was read: it marks these slots, and the first of their items begins at
/// octet `at`. The items before it alone are walked over. None comes where the slot isn't marked, and else only where the items
/// can't all be read.
#[inline(always)]
pub fn marked_item<'c, 'a>(
    codec: &'c Codec,
    marked: Presence,
    body: &'a [u8],
    at: u32,
    slot: u32,
) -> Option<ItemView<'c, 'a>>
    requires body { length body.now ≤ longest_body }
    requires field { EndsField codec.now body.now at marked }
    ensures item { IsMarkedItem codec.now marked body.now at slot result }
    ensures place { IfSome result (IsOfSlot codec.now codec.now.slots slot) }
{
    let start = Start { body, at };
    find_marked(codec, codec.slots.as_slice(), marked, start, slot)
}

/// The same in the octets after the presence field of a value of these slots.
#[inline(always)]
fn find_marked<'c, 'a>(
    codec: &'c Codec,
    slots: &[u32],
    marked: Presence,
    start: Start<'a>,
    slot: u32,
) -> Option<ItemView<'c, 'a>>
    requires slots { AreSlots codec.now.nodes slots.now }
    requires marks { AreBits marked }
    requires clear { MarksDefined codec.now.nodes slots.now marked }
    ensures value { HasFoundValue codec.now.nodes slots.now marked start.entry slot result }
    ensures place { IfSome result (IsOfSlot codec.now slots.now slot) }
    ensures window { StandsFound codec.now.nodes slots.now marked start.entry slot result }
{
    let body = start.body;
    let mut notes = Notes::new();
    let mut left = marked;
    let mut here = start.at;
    while let Some(next) = left.take_first() {
        let link = slots[next as usize - 1];
        let end = walk_of(codec, link, body, here, &mut notes)?;
        if next == slot {
            return Some(ItemView {
                codec,
                link,
                by_fx: false,
                body: &body[here as usize..end as usize],
            });
        }
        here = end;
    }
    None
}

/// The octet after an item, by its node. It stands apart, so that a loop over items has a call only for those of other octets than
/// fixed ones.
#[inline(never)]
fn walk_apart(codec: &Codec, link: u32, body: &[u8], at: u32, notes: &mut Notes) -> Option<u32>
    requires link { (0 < link) × (link ≤ length codec.now.nodes) }
    requires bounds { InBounds (kind_at codec.now.nodes link) }
    requires body { length body.now ≤ longest_body }
    requires at { at ≤ length body.now }
    ensures end { IfSome result (λ end. WalksKind (kind_at codec.now.nodes link) body.now at end notes.new.least) }
    ensures fault { IfNone result (FailsKind (kind_at codec.now.nodes link) body.now at notes.new.fault) }
{
    walk_node(codec.nodes.as_slice(), link, Start { body, at }, notes)
}

/// The same as `walk`, by a codec's nodes: over an item of fixed octets without a call.
#[inline(always)]
pub(crate) fn walk_of(
    codec: &Codec,
    link: u32,
    body: &[u8],
    at: u32,
    notes: &mut Notes,
) -> Option<u32>
    requires link { (0 < link) × (link ≤ length codec.now.nodes) }
    requires bounds { InBounds (kind_at codec.now.nodes link) }
    requires body { length body.now ≤ longest_body }
    requires at { at ≤ length body.now }
    ensures end { IfSome result (λ end. WalksKind (kind_at codec.now.nodes link) body.now at end notes.new.least) }
    ensures fault { IfNone result (FailsKind (kind_at codec.now.nodes link) body.now at notes.new.fault) }
{
    if let Some(end) = octets_end(Table::of(codec), link, Start { body, at }) {
        return Some(end);
    }
    walk_apart(codec, link, body, at, notes)
}
