//! The lines of what records lose, laid one after another. Nothing here takes memory.
ghost use Rattle.std.specs.Prelude.{◌≡◌, ℕ, [], IfSome, IsTrue, length, decimal};
ghost use Rattle.ax_migration.specs.Losing.{lost_line, lost_lines};
ghost use Rattle.ax_moves.specs.Items.{IsCompoundOf};
ghost use Rattle.ax_moves.specs.Laying.{Gathers};
ghost use Rattle.ax_moves.specs.Lost.{AreRuns, HasParts, IsPassed, is_below, lines_below, losses_below, own_loss, place_numbers, record_lines};
ghost use Rattle.ax_moves.specs.Wholes.{whole_entries};
ghost use Rattle.ax_format.specs.Tree.{marked, no_entries};
ghost use Rattle.ax_walk.specs.Placing.{IsPlaced};
ghost use Rattle.ax_walk.specs.Shown.{item_entries, item_value};

use crate::bare::subitem_slots;
use crate::laying::lay_octets;
use crate::leading::has_counted;
use crate::lost::{LostKey, Run};
use crate::whole::{CodedCompound, CodedItem, item_of};
use ax_codec::Node;
use ax_fspec::Presence;
use ax_walk::{ItemView, PlacedSlots, Places, place_subitems};
use itoa::Buffer;

/// Lays a number in decimal.
fn tell_number(number: u64, at: u32, lines: &mut [u8]) -> u32
    requires room { length lines.old ≡ 131067 }
    ensures told { Gathers (decimal number) at result lines.old lines.new }
    ensures room { length lines.new ≡ 131067 }
{
    let mut buffer = Buffer::new();
    lay_octets(buffer.format(number).as_bytes(), at, lines)
}

/// What lines name a record by: the number of its block, and its own in the block, from 0.
#[derive(Clone, Copy)]
pub struct RecordName {
    pub block: u64,
    pub number: u32,
}

/// Keys that a record can lose, of which so many numbers lead to one of its items, or none of them to the record itself.
#[derive(Clone, Copy)]
pub struct LostBelow<'k, 'p> {
    pub name: RecordName,
    pub keys: &'k [LostKey<'p>],
    pub depth: usize,
}

/// Lays the line `lost block N record M PATH`, up to its line feed.
fn tell_line(name: RecordName, path: &[u8], at: u32, lines: &mut [u8]) -> u32
    requires room { length lines.old ≡ 131067 }
    ensures told { Gathers (lost_line name.block name.number path.now) at result lines.old lines.new }
    ensures room { length lines.new ≡ 131067 }
{
    let named = lay_octets(b"lost block ", at, lines);
    let block_end = tell_number(name.block, named, lines);
    let record_named = lay_octets(b" record ", block_end, lines);
    let record_end = tell_number(name.number as u64, record_named, lines);
    let path_start = lay_octets(b" ", record_end, lines);
    let path_end = lay_octets(path, path_start, lines);
    lay_octets(b"\n", path_end, lines)
}

/// Whether there is something, with the part, where the numbers of a key's place behind the first ones lead from an item that
/// isn't a compound: there is nothing behind a further number. Parts are counted at most once for several keys.
fn is_there(
    item: &ItemView<'_, '_>,
    key: &LostKey<'_>,
    depth: usize,
    counted: &mut Option<u32>,
) -> bool
    requires leaf { item_entries item.now ≡ no_entries }
    requires size { length key.now.runs.items ≡ length (place_numbers key.now.path.now) }
    requires counted { IfSome counted.old (HasParts item.now) }
    ensures there { result ≡ is_below depth (item_value item.now) key.now.path.now }
    ensures counted { IfSome counted.new (HasParts item.now) }
{
    if key.runs.len() > depth {
        return false;
    }
    has_counted(item, key.path.part, counted)
}

/// Lays the lines of keys that lead to an item. It isn't a compound. With a part that isn't there the later ones are passed over.
fn tell_parts(item: &ItemView<'_, '_>, lost: &LostBelow<'_, '_>, at: u32, lines: &mut [u8]) -> u32
    requires leaf { item_entries item.now ≡ no_entries }
    requires runs { AreRuns lost.now.keys.now }
    requires room { length lines.old ≡ 131067 }
    ensures told { Gathers (lines_below lost.now (item_value item.now)) at result lines.old lines.new }
    ensures room { length lines.new ≡ 131067 }
{
    let keys = lost.keys;
    let mut counted = None;
    let mut end = at;
    let mut index = 0;
    while index < keys.len() {
        let key = &keys[index];
        index += 1;
        if is_there(item, key, lost.depth, &mut counted) {
            end = tell_line(lost.name, key.path.text.as_slice(), end, lines);
        } else {
            index += (keys.len() - index).min(key.absent as usize);
        }
    }
    end
}

/// Lays the line of a compound's own key: the compound is there, and has no parts.
fn tell_own(name: RecordName, key: &LostKey<'_>, at: u32, lines: &mut [u8]) -> u32
    requires room { length lines.old ≡ 131067 }
    ensures told { Gathers (lost_lines name.block (own_loss name.number key.now)) at result lines.old lines.new }
    ensures room { length lines.new ≡ 131067 }
{
    if key.path.part.is_some() {
        return at;
    }
    tell_line(name, key.path.text.as_slice(), at, lines)
}

/// Whether none of the keys from this one on, of which so many are behind it, is below a marked slot: their slots here are known,
/// and none of these is marked.
#[inline(always)]
fn is_passed(run: &Run, behind: usize, marked: &Presence) -> bool
    ensures { IsTrue result → IsPassed run.now behind marked.now }
{
    behind <= run.reach as usize && marked.common(&run.later).take_first().is_none()
}

/// Whether an item is sure to be a compound that has none of these keys, of which so many numbers lead to it: they are below
/// subitems, and none of these is there. The subitems that are there aren't walked over.
fn loses_nothing(item: &ItemView<'_, '_>, keys: &[LostKey<'_>], depth: usize) -> bool
    requires runs { AreRuns keys.now }
    ensures { IsTrue result → (number : ℕ) → losses_below number depth (item_value item.now) keys.now ≡ [] }
{
    if keys.is_empty() {
        return false;
    }
    let key = &keys[0];
    let Some(run) = key.runs.get(depth) else {
        return false;
    };
    match subitem_slots(item) {
        Some(marked) => is_passed(run, keys.len() - 1, &marked),
        None => false,
    }
}

/// Lays the lines of keys that lead to an item.
#[cycle(telling)]
#[inline(never)]
fn tell_inside(
    item: CodedItem<'_, '_, '_>,
    lost: &LostBelow<'_, '_>,
    at: u32,
    lines: &mut [u8],
) -> u32
    requires codec { item.found.now.item.codec.now ≡ item.codec.now }
    requires runs { AreRuns lost.now.keys.now }
    requires room { length lines.old ≡ 131067 }
    ensures told { Gathers (lines_below lost.now (item_value item.entry.found.now.item)) at result lines.old lines.new }
    ensures room { length lines.new ≡ 131067 }
{
    match item.found.item.node() {
        Node::Compound { slots, .. } => {
            if loses_nothing(&item.found.item, lost.keys, lost.depth) {
                return at;
            }
            tell_subitems(
                CodedCompound {
                    item,
                    slots: slots.as_slice(),
                },
                lost,
                at,
                lines,
            )
        }
        _ => tell_parts(&item.found.item, lost, at, lines),
    }
}

/// Lays the lines of keys that lead to a compound. It has a table of places on its stack, which is set at each call, and so stands apart.
#[cycle(telling)]
#[inline(never)]
fn tell_subitems(
    compound: CodedCompound<'_, '_, '_>,
    lost: &LostBelow<'_, '_>,
    at: u32,
    lines: &mut [u8],
) -> u32
    requires codec { compound.item.found.now.item.codec.now ≡ compound.item.codec.now }
    requires compound { IsCompoundOf compound.item.found.now.item compound.slots.now }
    requires runs { AreRuns lost.now.keys.now }
    requires room { length lines.old ≡ 131067 }
    ensures told { Gathers (lines_below lost.now (item_value compound.entry.item.found.now.item)) at result lines.old lines.new }
    ensures room { length lines.new ≡ 131067 }
{
    let item = &compound.item.found.item;
    let mut places = Places::new();
    place_subitems(item, &mut places);
    let whole = PlacedSlots {
        codec: compound.item.codec,
        slots: compound.slots,
        body: item.octets(),
        at: 0,
        places: &places,
    };
    tell_keys(&whole, lost, at, lines)
}

/// Lays the lines of keys that lead to a record or a compound. Keys of one slot are passed over together where it isn't marked,
/// and all that are left as soon as none of their slots is.
#[cycle(telling)]
pub fn tell_keys(
    whole: &PlacedSlots<'_, '_, '_>,
    lost: &LostBelow<'_, '_>,
    at: u32,
    lines: &mut [u8],
) -> u32
    requires placed { IsPlaced whole.now }
    requires runs { AreRuns lost.now.keys.now }
    requires room { length lines.old ≡ 131067 }
    ensures told { Gathers (lines_below lost.now (marked (whole_entries whole.now))) at result lines.old lines.new }
    ensures room { length lines.new ≡ 131067 }
{
    let keys = lost.keys;
    let marked = whole.marked();
    let mut end = at;
    let mut index = 0;
    while index < keys.len() {
        let key = &keys[index];
        let Some(run) = key.runs.get(lost.depth) else {
            end = tell_own(lost.name, key, end, lines);
            index += 1;
            continue;
        };
        let behind = keys.len() - index - 1;
        if is_passed(run, behind, &marked) {
            return end;
        }
        let count = behind.min(run.more as usize) + 1;
        if let Some(found) = item_of(whole, run.slot) {
            let item = CodedItem {
                codec: whole.codec,
                found: &found,
            };
            let inner = LostBelow {
                name: lost.name,
                keys: &keys[index..index + count],
                depth: lost.depth + 1,
            };
            end = tell_inside(item, &inner, end, lines);
        }
        index += count;
    }
    end
}

/// Lays the lines of what a record loses.
pub fn tell_record(
    name: RecordName,
    whole: &PlacedSlots<'_, '_, '_>,
    keys: &[LostKey<'_>],
    at: u32,
    lines: &mut [u8],
) -> u32
    requires placed { IsPlaced whole.now }
    requires runs { AreRuns keys.now }
    requires room { length lines.old ≡ 131067 }
    ensures told { Gathers (record_lines name (whole_entries whole.now) keys.now) at result lines.old lines.new }
    ensures room { length lines.new ≡ 131067 }
{
    let lost = LostBelow {
        name,
        keys,
        depth: 0,
    };
    tell_keys(whole, &lost, at, lines)
}
