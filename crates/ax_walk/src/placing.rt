//! Walks that tell where the values of marked slots stand.
ghost use Rattle.std.specs.Prelude.{◌≡◌, ◌≤◌, length, IfSome, IfNone};
ghost use Rattle.ax_bits.specs.Bits.{AreBits};
ghost use Rattle.ax_format.specs.Sizes.{longest_body};
ghost use Rattle.ax_codec.specs.NodeRows.{EachRows};
ghost use Rattle.ax_codec.specs.Table.{record_kind_at};
ghost use Rattle.ax_walk.specs.Marked.{MarksDefined, FailsMarked, PlacesMarked, slots_kind};
ghost use Rattle.ax_walk.specs.Placing.{PlacesCompound, PlacesKind};
ghost use Rattle.ax_walk.specs.Walking.{FailsKind, FailsFrom};

use crate::compound_rows::walk_record_item;
use crate::item::ItemView;
use crate::notes::Notes;
use crate::places::{Places, Window};
use crate::start::{Start, are_octets};
use crate::table::{LinkedSlots, Table};
use ax_codec::{Codec, Node};
use ax_fspec::{Presence, read_presence};
use ax_rows::SlotRows;

/// The octet after the record that begins at octet `at`, and where its items stand.
#[inline]
pub fn place_record(
    codec: &Codec,
    body: &[u8],
    at: u32,
    notes: &mut Notes,
    places: &mut Places,
) -> Option<u32>
    requires body { length body.now ≤ longest_body }
    requires at { at ≤ length body.now }
    ensures end { IfSome result (PlacesKind codec.now.nodes codec.now.slots body.now at places.new) }
    ensures fault { IfNone result (FailsKind (record_kind_at codec.now.nodes codec.now.slots) body.now at notes.new.fault) }
{
    let compounds = codec.nodes.compound_rows();
    place_slots(
        LinkedSlots::of(codec),
        compounds,
        Start { body, at },
        notes,
        places,
    )
}

/// The octet after a record, or a compound, of these slots, and where their values stand.
#[inline]
fn place_slots(
    slots: LinkedSlots<'_>,
    compounds: &[SlotRows],
    start: Start<'_>,
    notes: &mut Notes,
    places: &mut Places,
) -> Option<u32>
    requires { EachRows slots.table.octets.now slots.table.nodes.now compounds.now }
    ensures end { IfSome result (PlacesKind slots.entry.table.nodes.now slots.entry.links.now start.entry.body.now start.entry.at places.new) }
    ensures fault { IfNone result (FailsFrom (slots_kind slots.entry) start.entry notes.new.fault) }
{
    let body = start.body;
    are_octets(body);
    let mut marked = Presence::empty();
    match read_presence(slots.mask, body, start.at, &mut marked) {
        Ok(here) => {
            places.marked = marked;
            place_items(slots, compounds, Start { body, at: here }, notes, places)
        }
        Err(fault) => {
            notes.fault = fault;
            None
        }
    }
}

/// The octet after the values of the marked slots, of which the first begins at the start, and where each stands.
#[inline]
fn place_items(
    slots: LinkedSlots<'_>,
    compounds: &[SlotRows],
    start: Start<'_>,
    notes: &mut Notes,
    places: &mut Places,
) -> Option<u32>
    requires compounds { EachRows slots.table.octets.now slots.table.nodes.now compounds.now }
    requires marks { AreBits places.old.marked }
    requires clear { MarksDefined slots.table.nodes.now slots.links.now places.old.marked }
    ensures end { IfSome result (PlacesMarked slots.entry start.entry places.new) }
    ensures fault { IfNone result (FailsMarked slots.entry.table.nodes.now slots.entry.links.now places.old.marked start.entry notes.new.fault) }
    ensures marked { places.new.marked ≡ places.old.marked }
{
    let body = start.body;
    let mut left = places.marked;
    let mut here = start.at;
    while let Some(slot) = left.take_first() {
        notes.least = true;
        let link = slots.links[slot as usize - 1];
        let item = Start { body, at: here };
        let end = walk_record_item(slots.table, compounds, link, item, notes)?;
        places.windows[slot as usize] = Window {
            start: here,
            end,
            least: notes.least,
        };
        here = end;
    }
    Some(here)
}

/// Where the subitems of a compound stand in its octets.
pub fn place_subitems(item: &ItemView<'_, '_>, places: &mut Places)
    ensures { PlacesCompound item.now places.new }
{
    if let Node::Compound { mask, slots } = item.node() {
        let mut notes = Notes::new();
        let table = Table::of(item.codec);
        let links = slots.as_slice();
        let compounds = item.codec.nodes.compound_rows();
        let subitems = LinkedSlots { table, mask, links };
        let start = Start {
            body: item.body,
            at: 0,
        };
        let _end = place_slots(subitems, compounds, start, &mut notes, places);
    }
}
