//! What is known of the moves of records and compounds, so that of their slots those that are marked are looked at alone.
ghost use Rattle.std.specs.Prelude.{◌≡◌, ◌++◌, ◌∷◌, [], ◌≤◌, IsTrue, IfOk, IfSome, OnOk, length};
ghost use Rattle.ax_relation.specs.PlainMoves.{moves_tree};
ghost use Rattle.ax_moves.specs.BySlot.{ArePlaces};
ghost use Rattle.ax_moves.specs.KnownMoves.{AreFirst, FindsEach, Knows};

use crate::by_slot::place_of;
use ax_lists::Sequence;
use ax_relation::{Move, Moves};
use std::alloc::{AllocError, Global};

/// For each of some moves in order, what is known of those below it.
pub type KnownBelow = Sequence<KnownMoves>;

/// What is known of the moves of a record or a compound.
#[cycle(known_moves)]
#[derive(Drop)]
pub struct KnownMoves {
    /// By slot, from 0 on: the place in order, from 1 on, of the one move from it, and 0 where it has none. None where nothing
    /// moves, where more than 126 slots do, and where one moves twice.
    pub places: Option<Vec<u8>>,
    pub below: KnownBelow,
}

/// Whether each of some moves is the first from its slot.
fn are_first(moves: &[Move]) -> bool
    ensures { IsTrue result → AreFirst (length moves.now) (moves_tree moves.now) }
{
    for index in 0..moves.len() {
        if place_of(moves, moves[index].old) != index + 1 {
            return false;
        }
    }
    true
}

/// The places of the moves from all slots, of at most 126.
fn few_places(alloc: Global, moves: &[Move]) -> Result<Vec<u8>, AllocError>
    requires few { length moves.now ≤ 126 }
    ensures { IfOk result (λ made. ArePlaces moves.now 127 made.items) }
{
    let mut places = Vec::new(alloc);
    for slot in 0..127 {
        places.push(place_of(moves, slot) as u8)?;
    }
    Ok(places)
}

/// The place of the one move from each slot, if there are moves, of 126 slots at most, each of which moves once.
fn places_of_each(alloc: Global, moves: &[Move]) -> Result<Option<Vec<u8>>, AllocError>
    ensures { IfOk result (λ made. IfSome made (λ places. FindsEach (moves_tree moves.now) places.items)) }
{
    if moves.is_empty() || moves.len() > 126 || !are_first(moves) {
        return Ok(None);
    }
    Ok(Some(few_places(alloc, moves)?))
}

/// Appends what is known of the moves below one more. A list of more than 2^32 - 1 members is a want of memory.
fn push(below: &mut KnownBelow, one: KnownMoves) -> Result<(), AllocError>
    ensures { OnOk result (below.new ≡ below.old ++ one ∷ []) }
{
    if below.count() == u32::MAX {
        return Err(AllocError);
    }
    below.push(one)
}

/// What is known of these moves, and of those below each.
pub fn know_each(alloc: Global, moves: &Moves) -> Result<KnownMoves, AllocError>
    ensures { IfOk result (λ made. Knows (moves_tree moves.now) made) }
{
    let mut below = KnownBelow::new(alloc);
    for one in moves.as_slice() {
        push(&mut below, know_each(alloc, &one.below)?)?;
    }
    let places = places_of_each(alloc, moves.as_slice())?;
    Ok(KnownMoves { places, below })
}
