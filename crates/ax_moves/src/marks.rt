//! The new slots of the entries that move.
ghost use Rattle.std.specs.Prelude.{◌≡◌};
ghost use Rattle.ax_relation.specs.PlainMoves.{move_tree, moves_tree};
ghost use Rattle.ax_fspec.specs.Marks.{no_marks};
ghost use Rattle.ax_moves.specs.Octets.{marks_by, move_marks, with_slot};
ghost use Rattle.ax_moves.specs.Wholes.{whole_entries};
ghost use Rattle.ax_walk.specs.Placing.{IsPlaced};

use ax_fspec::Presence;
use ax_relation::{Move, Moves};
use ax_walk::PlacedSlots;

/// Adds a slot from 1 to 126; another number changes nothing.
#[inline]
pub fn add_slot(slot: u32, marked: &mut Presence)
    ensures { marked.new ≡ with_slot slot marked.old }
{
    if slot >= 1 && slot <= 126 {
        marked.mark(slot);
    }
}

/// Adds the new slot of the entry that a move makes, if there is one.
#[inline]
pub fn add_moved(whole: &PlacedSlots<'_, '_, '_>, one: &Move, marked: &mut Presence)
    requires placed { IsPlaced whole.now }
    ensures { marked.new ≡ move_marks (move_tree one.now) (whole_entries whole.now) marked.old }
{
    if whole.has(one.old) {
        add_slot(one.new, marked);
    }
}

/// The set of the new slots of the entries that move.
#[tactic(auto, using(crate::proofs::Entries::marks))]
pub fn moved_slots(whole: &PlacedSlots<'_, '_, '_>, moves: &Moves) -> Presence
    requires placed { IsPlaced whole.now }
    ensures { result ≡ marks_by (moves_tree moves.now) (whole_entries whole.now) no_marks }
{
    let mut marked = Presence::empty();
    for one in moves.as_slice() {
        add_moved(whole, one, &mut marked);
    }
    marked
}
