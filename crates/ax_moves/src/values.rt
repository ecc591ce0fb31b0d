//! Migrated values, laid from those of the old edition.
ghost use Rattle.std.specs.Prelude.{◌≡◌, ◌++◌, false, length};
ghost use Rattle.ax_fspec.specs.Marks.{slots_of};
ghost use Rattle.ax_relation.specs.PlainMoves.{move_tree, moves_tree};
ghost use Rattle.ax_moves.specs.Items.{IsCompoundOf, moved_item};
ghost use Rattle.ax_moves.specs.KnownMoves.{Knows, KnowsOf, KnowsBelow, places_canon};
ghost use Rattle.ax_moves.specs.Laying.{Lays};
ghost use Rattle.ax_moves.specs.Octets.{entries_canon_by, move_canon, whole_canon_by};
ghost use Rattle.ax_moves.specs.Wholes.{of_whole};
ghost use Rattle.ax_walk.specs.Placing.{IsPlaced};

use crate::bare::is_bare;
use crate::fronts::front;
use crate::keeping::moves_whole;
use crate::known_moves::{KnownBelow, KnownMoves};
use crate::laying::{lay_field, lay_front, lay_item, lay_octets};
use crate::marks::moved_slots;
use crate::there::{moves_there, slots_there};
use crate::whole::{CodedCompound, CodedItem, item_of};
use ax_codec::Node;
use ax_fspec::Presence;
use ax_relation::{Move, Moves};
use ax_walk::{PlacedSlots, Places, place_subitems};

/// The places of moves of which something is there, and what is known of those below each move.
#[derive(Clone, Copy)]
struct MovesThere<'k> {
    places: Presence,
    known: &'k KnownBelow,
}

/// Lays the value of an item as it moves, and answers how many octets were laid: the item's own octets, where they are that.
#[cycle(laying)]
fn lay_value(
    item: CodedItem<'_, '_, '_>,
    one: &Move,
    known: &KnownMoves,
    at: u32,
    output: &mut [u8],
) -> u32
    requires codec { item.found.now.item.codec.now ≡ item.codec.now }
    requires whole { item.found.now.item.by_fx ≡ false }
    requires known { KnowsOf (move_tree one.now) known.now }
    requires room { length output.old ≡ 131067 }
    ensures laid { Lays (moved_item one.now item.entry.found.now.item) at result output.old output.new }
    ensures room { length output.new ≡ 131067 }
{
    if moves_whole(item.found, one.parts) {
        return lay_octets(item.found.item.octets(), at, output);
    }
    if is_bare(&item.found.item) {
        return lay_octets(&[0], at, output);
    }
    lay_anew(item, one, known, at, output)
}

/// The same, slot by slot in a compound and part by part in an extended item.
#[cycle(laying)]
#[inline(never)]
fn lay_anew(
    item: CodedItem<'_, '_, '_>,
    one: &Move,
    known: &KnownMoves,
    at: u32,
    output: &mut [u8],
) -> u32
    requires codec { item.found.now.item.codec.now ≡ item.codec.now }
    requires whole { item.found.now.item.by_fx ≡ false }
    requires known { KnowsOf (move_tree one.now) known.now }
    requires room { length output.old ≡ 131067 }
    ensures laid { Lays (moved_item one.now item.entry.found.now.item) at result output.old output.new }
    ensures room { length output.new ≡ 131067 }
{
    match item.found.item.node() {
        Node::Compound { slots, .. } => {
            lay_subitems(
                CodedCompound {
                    item,
                    slots: slots.as_slice(),
                },
                one,
                known,
                at,
                output,
            )
        }
        Node::Extended { parts, .. } => {
            let octets = item.found.item.octets();
            let front = front(
                item.codec.nodes.as_slice(),
                parts.as_slice(),
                one.parts,
                octets.len(),
            );
            lay_front(octets, front, at, output)
        }
        _ => lay_item(item.codec, &item.found.item, at, output),
    }
}

/// Lays the value of a compound as it moves, slot by slot. It has a table of places on its stack, which is set at each call, and so
/// stands apart.
#[cycle(laying)]
#[inline(never)]
fn lay_subitems(
    compound: CodedCompound<'_, '_, '_>,
    one: &Move,
    known: &KnownMoves,
    at: u32,
    output: &mut [u8],
) -> u32
    requires codec { compound.item.found.now.item.codec.now ≡ compound.item.codec.now }
    requires compound { IsCompoundOf compound.item.found.now.item compound.slots.now }
    requires known { KnowsOf (move_tree one.now) known.now }
    requires room { length output.old ≡ 131067 }
    ensures laid { Lays (moved_item one.now compound.entry.item.found.now.item) at result output.old output.new }
    ensures room { length output.new ≡ 131067 }
{
    let item = &compound.item.found.item;
    let mut places = Places::new();
    place_subitems(item, &mut places);
    let whole = PlacedSlots {
        codec: compound.item.codec,
        slots: compound.slots,
        body: item.octets(),
        at: 0,
        places: &places,
    };
    lay_whole(&whole, &one.below, known, at, output)
}

/// Lays the entries that move, after the presence field of their new slots.
#[cycle(laying)]
pub fn lay_whole(
    whole: &PlacedSlots<'_, '_, '_>,
    moves: &Moves,
    known: &KnownMoves,
    at: u32,
    output: &mut [u8],
) -> u32
    requires placed { IsPlaced whole.now }
    requires known { Knows (moves_tree moves.now) known.now }
    requires room { length output.old ≡ 131067 }
    ensures laid { Lays (of_whole (whole_canon_by (moves_tree moves.now)) whole.now) at result output.old output.new }
    ensures room { length output.new ≡ 131067 }
{
    let Some(places) = &known.places else {
        let marked = moved_slots(whole, moves);
        let end = lay_field(&marked, at, output);
        return lay_entries(whole, moves, &known.below, end, output);
    };
    let there = MovesThere {
        places: moves_there(whole, places.as_slice()),
        known: &known.below,
    };
    let marked = slots_there(whole, moves.as_slice(), &there.places);
    let end = lay_field(&marked, at, output);
    lay_there(whole, moves, &there, end, output)
}

/// Lays the entry that a move makes, if there is one.
#[cycle(laying)]
pub fn lay_entry(
    whole: &PlacedSlots<'_, '_, '_>,
    one: &Move,
    known: &KnownMoves,
    at: u32,
    output: &mut [u8],
) -> u32
    requires placed { IsPlaced whole.now }
    requires known { KnowsOf (move_tree one.now) known.now }
    requires room { length output.old ≡ 131067 }
    ensures laid { Lays (of_whole (move_canon (move_tree one.now)) whole.now) at result output.old output.new }
    ensures room { length output.new ≡ 131067 }
{
    match item_of(whole, one.old) {
        Some(found) => {
            let item = CodedItem {
                codec: whole.codec,
                found: &found,
            };
            lay_value(item, one, known, at, output)
        }
        None => at,
    }
}

/// Lays the entries of the moves of which something is there, in their order.
#[cycle(laying)]
fn lay_there(
    whole: &PlacedSlots<'_, '_, '_>,
    moves: &Moves,
    there: &MovesThere<'_>,
    at: u32,
    output: &mut [u8],
) -> u32
    requires placed { IsPlaced whole.now }
    requires known { KnowsBelow (moves_tree moves.now) there.now.known.now }
    requires room { length output.old ≡ 131067 }
    ensures laid { Lays (of_whole (places_canon (slots_of there.now.places) (moves_tree moves.now)) whole.now) at result output.old output.new }
    ensures room { length output.new ≡ 131067 }
{
    let moves = moves.as_slice();
    let known = there.known.as_slice();
    let mut end = at;
    let mut left = there.places;
    while let Some(place) = left.take_first() {
        let index = place as usize - 1;
        if index < moves.len() {
            end = lay_entry(whole, &moves[index], &known[index], end, output);
        }
    }
    end
}

/// Lays the entries that move, in the order of the moves, whichever slots are marked.
#[cycle(laying)]
fn lay_entries(
    whole: &PlacedSlots<'_, '_, '_>,
    moves: &Moves,
    known: &KnownBelow,
    at: u32,
    output: &mut [u8],
) -> u32
    requires placed { IsPlaced whole.now }
    requires known { KnowsBelow (moves_tree moves.now) known.now }
    requires room { length output.old ≡ 131067 }
    ensures laid { Lays (of_whole (entries_canon_by (moves_tree moves.now)) whole.now) at result output.old output.new }
    ensures room { length output.new ≡ 131067 }
{
    let moves = moves.as_slice();
    let known = known.as_slice();
    let mut end = at;
    for index in 0..moves.len() {
        end = lay_entry(whole, &moves[index], &known[index], end, output);
    }
    end
}
