//! Values written anew, with least presence fields.
ghost use Rattle.std.specs.Prelude.{◌≡◌, ◌+◌, ◌-◌, ◌*◌, ◌<◌, ◌≤◌, length};
ghost use Rattle.ax_bits.specs.Bits.{AreBits};
ghost use Rattle.ax_bits.specs.Out.{room, Appends};
ghost use Rattle.ax_canon.specs.Rewriting.{RewritesEntries, RewritesKind};
ghost use Rattle.ax_fspec.specs.Fields.{MarksSlots};
ghost use Rattle.ax_fspec.specs.declared.mask.SlotMask.{SlotMask};
ghost use Rattle.ax_format.specs.InBounds.{InBounds, SlotsInBounds};
ghost use Rattle.ax_format.specs.Presence.{NoneUndefined};
ghost use Rattle.ax_format.specs.Sizes.{longest_body};
ghost use Rattle.ax_format.specs.Tree as Tree;
ghost use Rattle.ax_codec.specs.Meaning.{meanings, linked_slots};
ghost use Rattle.ax_codec.specs.Table.{IsTable, SlotLinksWithin, kind_at, record_kind_at};
ghost use Rattle.ax_fspec.specs.Reading.{IsMaskOf};
ghost use Rattle.ax_walk.specs.Plain.{IsPlain};
ghost use Rattle.ax_walk.specs.Rows.{tree_of};

use ax_bits::Out;
use ax_codec::{Codec, Node};
use ax_format::Counter;
use ax_fspec::{MarkedItems, Presence, SlotMask, count_at, read_presence, write_presence};
use ax_walk::{Notes, items_by_rows, walk, walk_record};

/// The kind of occurrences, by its link, and the counter before them.
#[derive(Clone, Copy)]
pub(crate) struct CountedKind {
    pub(crate) counter: Counter,
    pub(crate) inner: u32,
}

/// The slots of a compound: the mask has those that aren't spare, and each of these has the link of its node.
#[derive(Clone, Copy)]
pub(crate) struct CompoundSlots<'c> {
    pub(crate) mask: &'c SlotMask,
    pub(crate) links: &'c [u32],
}

/// Appends the canonical spelling of the record at octet `at`. Answers the octet after it.
pub(crate) fn rewrite_record(codec: &Codec, body: &[u8], at: u32, out: &mut Out<'_>) -> u32
    requires body { length body.now ≤ longest_body }
    requires at { at ≤ length body.now }
    requires room { 8 * (length body.now - at) ≤ room out.old }
    ensures { RewritesKind (record_kind_at codec.now.nodes codec.now.slots) body.now at result out.old out.new }
{
    let mut notes = Notes::new();
    match walk_record(codec, body, at, &mut notes) {
        Some(end) if notes.least => {
            out.push_octets(&body[at as usize..end as usize]);
            end
        }
        _ => rewrite_field(codec, body, at, out),
    }
}

/// The same of a record whose octets aren't its canonical spelling.
pub(crate) fn rewrite_field(codec: &Codec, body: &[u8], at: u32, out: &mut Out<'_>) -> u32
    requires body { length body.now ≤ longest_body }
    requires at { at ≤ length body.now }
    requires room { 8 * (length body.now - at) ≤ room out.old }
    ensures { RewritesKind (record_kind_at codec.now.nodes codec.now.slots) body.now at result out.old out.new }
{
    let mut items = Presence::empty();
    match read_presence(&codec.mask, body, at, &mut items) {
        Err(_) => at,
        Ok(here) => {
            write_presence(&items, out);
            let items = MarkedItems {
                marked: items,
                begin: here,
            };
            rewrite_items(codec, items, body, at, out)
        }
    }
}

/// Appends the canonical spellings of the items of the marked slots, of a record whose presence field begins at octet `at`. Where no
/// presence field in them is longer than it has to be, as their rows tell, their octets are copied in
/// one piece: the record's own field alone was.
fn rewrite_items(codec: &Codec, items: MarkedItems, body: &[u8], at: u32, out: &mut Out<'_>) -> u32
    requires field { MarksSlots codec.now.mask body.now at items.begin items.marked }
    requires body { length body.now ≤ longest_body }
    requires room { 8 * (length body.now - items.begin) ≤ room out.old }
    ensures { RewritesEntries (tree_of codec.now.nodes codec.now.slots) items.marked body.now items.begin result out.old out.new }
{
    let nodes = codec.nodes.as_slice();
    let slots = codec.slots.as_slice();
    let mut notes = Notes::new();
    match items_by_rows(codec, body, at, &mut notes) {
        Some(end) if notes.least => {
            out.push_octets(&body[items.begin as usize..end as usize]);
            end
        }
        _ => rewrite_marked(nodes, slots, items, body, out),
    }
}

/// Appends the canonical spelling of the value at octet `at`, of the kind that a link leads to.
#[cycle(rewrite)]
fn rewrite(nodes: &[Node], link: u32, body: &[u8], at: u32, out: &mut Out<'_>) -> u32
    requires table { IsTable nodes.now }
    requires link { (0 < link) × (link ≤ length nodes.now) }
    requires bounds { InBounds (kind_at nodes.now link) }
    requires body { length body.now ≤ longest_body }
    requires at { at ≤ length body.now }
    requires room { 8 * (length body.now - at) ≤ room out.old }
    ensures { RewritesKind (kind_at nodes.now link) body.now at result out.old out.new }
{
    match &nodes[link as usize - 1] {
        Node::Counted { counter, inner } => {
            let kind = CountedKind {
                counter: *counter,
                inner: *inner,
            };
            rewrite_counted(nodes, kind, body, at, out)
        }
        Node::Compound { mask, slots } => {
            let links = slots.as_slice();
            rewrite_compound(nodes, CompoundSlots { mask, links }, body, at, out)
        }
        Node::Part { .. } => at,
        Node::Element { .. } => copy(nodes, link, body, at, out),
        Node::Group { .. } => copy(nodes, link, body, at, out),
        Node::Extended { .. } => copy(nodes, link, body, at, out),
        Node::ByFx { .. } => copy(nodes, link, body, at, out),
        Node::Explicit => copy(nodes, link, body, at, out),
    }
}

/// Appends the octets of a value whose kind has no presence field.
fn copy(nodes: &[Node], link: u32, body: &[u8], at: u32, out: &mut Out<'_>) -> u32
    requires table { IsTable nodes.now }
    requires link { (0 < link) × (link ≤ length nodes.now) }
    requires bounds { InBounds (kind_at nodes.now link) }
    requires plain { IsPlain (kind_at nodes.now link) }
    requires body { length body.now ≤ longest_body }
    requires at { at ≤ length body.now }
    requires room { 8 * (length body.now - at) ≤ room out.old }
    ensures { RewritesKind (kind_at nodes.now link) body.now at result out.old out.new }
{
    let mut notes = Notes::new();
    match walk(nodes, link, body, at, &mut notes) {
        None => at,
        Some(end) => {
            out.push_octets(&body[at as usize..end as usize]);
            end
        }
    }
}

/// Appends the canonical spelling of a counted or wide item.
#[cycle(rewrite)]
pub(crate) fn rewrite_counted(
    nodes: &[Node],
    kind: CountedKind,
    body: &[u8],
    at: u32,
    out: &mut Out<'_>,
) -> u32
    requires table { IsTable nodes.now }
    requires link { (0 < kind.inner) × (kind.inner ≤ length nodes.now) }
    requires bounds { InBounds (kind_at nodes.now kind.inner) }
    requires body { length body.now ≤ longest_body }
    requires at { at ≤ length body.now }
    requires room { 8 * (length body.now - at) ≤ room out.old }
    ensures { RewritesKind (Tree.counted kind.counter (kind_at nodes.now kind.inner)) body.now at result out.old out.new }
{
    let Some(count) = count_at(body, at, kind.counter) else {
        return at;
    };
    let mut here = at + kind.counter.octets();
    out.push_octets(&body[at as usize..here as usize]);
    for _ in 0..count {
        here = rewrite(nodes, kind.inner, body, here, out);
    }
    here
}

/// Appends the canonical spelling of a compound, or a record, of these slots.
#[cycle(rewrite)]
pub(crate) fn rewrite_compound(
    nodes: &[Node],
    slots: CompoundSlots<'_>,
    body: &[u8],
    at: u32,
    out: &mut Out<'_>,
) -> u32
    requires table { IsTable nodes.now }
    requires links { SlotLinksWithin (length nodes.now) slots.links.now }
    requires mask { IsMaskOf (linked_slots (meanings nodes.now) slots.links.now) slots.mask.now }
    requires bounds { InBounds (record_kind_at nodes.now slots.links.now) }
    requires body { length body.now ≤ longest_body }
    requires at { at ≤ length body.now }
    requires room { 8 * (length body.now - at) ≤ room out.old }
    ensures { RewritesKind (record_kind_at nodes.now slots.entry.links.now) body.now at result out.old out.new }
{
    let mut marked = Presence::empty();
    match read_presence(slots.mask, body, at, &mut marked) {
        Err(_) => at,
        Ok(begin) => {
            write_presence(&marked, out);
            rewrite_marked(nodes, slots.links, MarkedItems { marked, begin }, body, out)
        }
    }
}

/// Appends the canonical spellings of the subitems of the marked slots.
#[cycle(rewrite)]
fn rewrite_marked(
    nodes: &[Node],
    slots: &[u32],
    items: MarkedItems,
    body: &[u8],
    out: &mut Out<'_>,
) -> u32
    requires table { IsTable nodes.now }
    requires links { SlotLinksWithin (length nodes.now) slots.now }
    requires bounds { SlotsInBounds (Tree.slots_of (linked_slots (meanings nodes.now) slots.now)) }
    requires marks { AreBits items.marked }
    requires clear { NoneUndefined (Tree.defined_slots (Tree.slots_of (linked_slots (meanings nodes.now) slots.now))) items.marked }
    requires body { length body.now ≤ longest_body }
    requires at { items.begin ≤ length body.now }
    requires room { 8 * (length body.now - items.begin) ≤ room out.old }
    ensures { RewritesEntries (tree_of nodes.now slots.now) items.marked body.now items.begin result out.old out.new }
{
    let mut left = items.marked;
    let mut here = items.begin;
    while let Some(slot) = left.take_first() {
        here = rewrite(nodes, slots[slot as usize - 1], body, here, out);
    }
    here
}
