//! The moves from marked slots, by their places in order.
ghost use Rattle.std.specs.Prelude.{◌≡◌, length};
ghost use Rattle.ax_relation.specs.PlainMoves.{moves_tree};
ghost use Rattle.ax_fspec.specs.Marks.{no_marks, slots_of};
ghost use Rattle.ax_moves.specs.KnownMoves.{places_marks, with_places};
ghost use Rattle.ax_moves.specs.Wholes.{whole_entries};
ghost use Rattle.ax_walk.specs.Placing.{IsPlaced};

use crate::marks::{add_moved, add_slot};
use ax_fspec::Presence;
use ax_relation::Move;
use ax_walk::PlacedSlots;

/// The set of the places of the moves from marked slots.
pub fn moves_there(whole: &PlacedSlots<'_, '_, '_>, places: &[u8]) -> Presence
    requires placed { IsPlaced whole.now }
    requires places { length places.now ≡ 127 }
    ensures { result ≡ with_places (slots_of whole.now.places.now.marked) places.now no_marks }
{
    let mut there = Presence::empty();
    let mut left = whole.marked();
    while let Some(slot) = left.take_first() {
        add_slot(places[slot as usize] as u32, &mut there);
    }
    there
}

/// The set of the new slots of the entries that the moves at these places make.
pub fn slots_there(whole: &PlacedSlots<'_, '_, '_>, moves: &[Move], there: &Presence) -> Presence
    requires placed { IsPlaced whole.now }
    ensures { result ≡ places_marks (slots_of there.now) (moves_tree moves.now) (whole_entries whole.now) no_marks }
{
    let mut marked = Presence::empty();
    let mut left = *there;
    while let Some(place) = left.take_first() {
        let index = place as usize - 1;
        if index < moves.len() {
            add_moved(whole, &moves[index], &mut marked);
        }
    }
    marked
}
