//! Records laid by their marked slots, where the moves come in the order of the old slots.
ghost use Rattle.std.specs.Prelude.{◌≡◌, ◌++◌, ◌<◌, ◌≤◌, IsTrue, length};
ghost use Rattle.ax_bits.specs.Bits.{bits};
ghost use Rattle.ax_relation.specs.PlainMoves.{moves_tree};
ghost use Rattle.ax_fspec.specs.Marks.{no_marks, slots_of};
ghost use Rattle.ax_moves.specs.BySlot.{ArePlaces, ascends, found_marks, found_move, run_octets, slots_canon, slots_marks};
ghost use Rattle.ax_moves.specs.KnownMoves.{KnowsMoves};
ghost use Rattle.ax_moves.specs.Laying.{Lays};
ghost use Rattle.ax_moves.specs.Octets.{whole_canon_by};
ghost use Rattle.ax_moves.specs.Wholes.{of_whole, whole_entries};
ghost use Rattle.ax_walk.specs.Placing.{IsPlaced};

use crate::by_slot::SlotMoves;
use crate::laying::{lay_field, lay_octets};
use crate::marks::add_moved;
use crate::subitems::is_copied;
use crate::values::{lay_entry, lay_whole};
use ax_fspec::Presence;
use ax_relation::{Move, Moves};
use ax_walk::PlacedSlots;

/// Adds the new slot of the entry of a slot, if it is there and moves.
#[inline(always)]
fn mark_moved(
    whole: &PlacedSlots<'_, '_, '_>,
    moves: &[Move],
    places: &[usize],
    slot: u32,
    marked: &mut Presence,
)
    requires placed { IsPlaced whole.now }
    requires few { length moves.now < 4294967296 }
    requires places { ArePlaces moves.now 127 places.now }
    requires slot { slot < 127 }
    ensures { marked.new ≡ found_marks (found_move slot (moves_tree moves.now)) (whole_entries whole.now) marked.old }
{
    let place = places[slot as usize];
    if place > 0 {
        add_moved(whole, &moves[place - 1], marked);
    }
}

/// The set of the new slots of the entries that move.
fn marked_anew(whole: &PlacedSlots<'_, '_, '_>, moves: &[Move], known: &SlotMoves) -> Presence
    requires placed { IsPlaced whole.now }
    requires few { length moves.now < 4294967296 }
    requires known { KnowsMoves whole.now.codec.now.nodes whole.now.slots.now moves.now known.now }
    ensures { result ≡ slots_marks (slots_of whole.now.places.now.marked) (moves_tree moves.now) (whole_entries whole.now) no_marks }
{
    if let Some(kept) = &known.kept {
        return whole.marked().common(kept);
    }
    let places = known.places.as_slice();
    let mut marked = Presence::empty();
    let mut left = whole.marked();
    while let Some(slot) = left.take_first() {
        mark_moved(whole, moves, places, slot, &mut marked);
    }
    marked
}

/// Lays the octets of a body from `start` up to `stop`.
#[inline(always)]
pub fn lay_run(body: &[u8], start: u32, stop: u32, at: u32, output: &mut [u8]) -> u32
    requires run { (start ≤ stop) × (stop ≤ length body.now) }
    requires room { length output.old ≡ 131067 }
    ensures laid { Lays (bits (run_octets start stop body.now)) at result output.old output.new }
    ensures room { length output.new ≡ 131067 }
{
    if start == stop {
        return at;
    }
    lay_octets(&body[start as usize..stop as usize], at, output)
}

/// Lays the entries that move, in the order of their slots. Octets of the body that stay as they are, one entry's after
/// another's, are laid as one piece.
fn lay_marked(
    whole: &PlacedSlots<'_, '_, '_>,
    moves: &[Move],
    known: &SlotMoves,
    at: u32,
    output: &mut [u8],
) -> u32
    requires placed { IsPlaced whole.now }
    requires few { length moves.now < 4294967296 }
    requires known { KnowsMoves whole.now.codec.now.nodes whole.now.slots.now moves.now known.now }
    requires room { length output.old ≡ 131067 }
    ensures laid { Lays (of_whole (slots_canon (slots_of whole.now.places.now.marked) (moves_tree moves.now)) whole.now) at result output.old output.new }
    ensures room { length output.new ≡ 131067 }
{
    let places = known.places.as_slice();
    let stays = known.stays.as_slice();
    let leaving = known.leaving.as_slice();
    let below = known.by_place.below.as_slice();
    let mut end = at;
    let mut start = 0;
    let mut stop = 0;
    let mut left = whole.marked();
    while let Some(slot) = left.take_first() {
        let Some(window) = whole.place(slot) else {
            continue;
        };
        if !window.least || !is_copied(whole, slot, stays[slot as usize], &leaving[slot as usize]) {
            let place = places[slot as usize];
            if place == 0 {
                continue;
            }
            end = lay_run(whole.body, start, stop, end, output);
            end = lay_entry(whole, &moves[place - 1], &below[place - 1], end, output);
            start = 0;
            stop = 0;
            continue;
        }
        if window.start != stop {
            end = lay_run(whole.body, start, stop, end, output);
            start = window.start;
        }
        stop = window.end;
    }
    lay_run(whole.body, start, stop, end, output)
}

/// Lays the entries that move, after the presence field of their new slots, where the moves are in order.
fn lay_in_order(
    whole: &PlacedSlots<'_, '_, '_>,
    moves: &[Move],
    known: &SlotMoves,
    at: u32,
    output: &mut [u8],
) -> u32
    requires placed { IsPlaced whole.now }
    requires ordered { IsTrue (ascends 1 (moves_tree moves.now)) }
    requires few { length moves.now < 4294967296 }
    requires known { KnowsMoves whole.now.codec.now.nodes whole.now.slots.now moves.now known.now }
    requires room { length output.old ≡ 131067 }
    ensures laid { Lays (of_whole (whole_canon_by (moves_tree moves.now)) whole.now) at result output.old output.new }
    ensures room { length output.new ≡ 131067 }
{
    let marked = marked_anew(whole, moves, known);
    let end = lay_field(&marked, at, output);
    lay_marked(whole, moves, known, end, output)
}

/// Lays the entries that move, after the presence field of their new slots.
pub fn lay_moved(
    whole: &PlacedSlots<'_, '_, '_>,
    moves: &Moves,
    known: &SlotMoves,
    at: u32,
    output: &mut [u8],
) -> u32
    requires placed { IsPlaced whole.now }
    requires known { KnowsMoves whole.now.codec.now.nodes whole.now.slots.now moves.now known.now }
    requires room { length output.old ≡ 131067 }
    ensures laid { Lays (of_whole (whole_canon_by (moves_tree moves.now)) whole.now) at result output.old output.new }
    ensures room { length output.new ≡ 131067 }
{
    if known.ordered {
        lay_in_order(whole, moves.as_slice(), known, at, output)
    } else {
        lay_whole(whole, moves, &known.by_place, at, output)
    }
}
