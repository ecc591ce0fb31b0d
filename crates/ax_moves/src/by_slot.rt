//! The moves of a record by the old slot, looked up once.
ghost use Rattle.std.specs.Prelude.{◌≡◌, ◌<◌, ◌≤◌, IsTrue, IfOk, IfSome, length};
ghost use Rattle.ax_relation.specs.PlainMoves.{moves_tree};
ghost use Rattle.ax_moves.specs.BySlot.{ArePlaces, IsOwnMove, KeepSlots, StayInSlots, StaysInSlot, ascends, place_from};
ghost use Rattle.ax_moves.specs.KnownMoves.{KnowsMoves};
ghost use Rattle.ax_codec.specs.Table.{IsTable, SlotLinksWithin};

use crate::keeping::keeps;
use crate::known_moves::{KnownMoves, know_each};
use crate::subitems::leaving_slots;
use ax_codec::{Codec, Node};
use ax_fspec::Presence;
use ax_relation::{Move, Moves};
use std::alloc::{AllocError, Global};

/// The numbers of the slots of a record, and 0.
pub const SLOTS: u32 = 127;

/// What is known of the moves of a record, so that its marked slots alone are gone through.
pub struct SlotMoves {
    /// Whether the moves come in the order of their old slots, each slot once.
    pub ordered: bool,
    /// By slot, from 0 on: 1 more than the index of its move, and 0 where it has none.
    pub places: Vec<usize>,
    /// By slot, from 0 on: whether it has a move under which the canonical octets of each of its values stay.
    pub stays: Vec<bool>,
    /// By slot, from 0 on: of the compound that moves from it the slots of the subitems that may not stay as they are, and None
    /// where no compound moves from it.
    pub leaving: Vec<Option<Presence>>,
    /// The slots that have a move, where each move is to the slot of the same number.
    pub kept: Option<Presence>,
    /// What is known of the moves by their places in order, and of those below each.
    pub by_place: KnownMoves,
}

impl Drop for SlotMoves {
    fn drop(self) {
        let SlotMoves {
            ordered: _ordered,
            places: _places,
            stays: _stays,
            leaving: _leaving,
            kept: _kept,
            by_place: _by_place,
        } = self;
    }
}

/// Whether the moves come in the order of their old slots, each slot once.
pub fn are_ordered(moves: &[Move]) -> bool
    ensures { IsTrue result → IsTrue (ascends 1 (moves_tree moves.now)) }
{
    let mut least: u64 = 1;
    for one in moves {
        let slot = one.old as u64;
        if slot < least {
            return false;
        }
        least = slot + 1;
    }
    true
}

/// 1 more than the index of the first move from a slot, and 0 where there is none.
pub fn place_of(moves: &[Move], slot: u32) -> usize
    ensures place { result ≡ place_from 1 slot (moves_tree moves.now) }
    ensures within { result ≤ length moves.now }
{
    for index in 0..moves.len() {
        if moves[index].old == slot {
            return index + 1;
        }
    }
    0
}

/// The move from a slot, where the moves are in order, the slot isn't spare, and the move is to the slot of the same number.
pub fn own_move<'m>(links: &[u32], moves: &'m [Move], ordered: bool, slot: u32) -> Option<&'m Move>
    requires slot { 1 ≤ slot }
    ensures ordered { IfSome result (λ one. IsTrue ordered) }
    ensures link { IfSome result (λ one. slot ≤ length links.now) }
    ensures own { IfSome result (λ one. IsOwnMove links.now (moves_tree moves.now) slot one.now) }
{
    if !ordered {
        return None;
    }
    let place = place_of(moves, slot);
    if place == 0 || slot as usize > links.len() {
        return None;
    }
    let link = links[slot as usize - 1];
    let one = &moves[place - 1];
    if link == 0 || one.new != slot {
        return None;
    }
    Some(one)
}

/// The places of the moves from all slots.
fn places_of(alloc: Global, moves: &[Move]) -> Result<Vec<usize>, AllocError>
    ensures { IfOk result (λ made. ArePlaces moves.now 127 made.items) }
{
    let mut places = Vec::new(alloc);
    for slot in 0..SLOTS {
        places.push(place_of(moves, slot))?;
    }
    Ok(places)
}

/// Whether a slot has a move under which the canonical octets of each of its values stay.
fn does_stay(nodes: &[Node], links: &[u32], moves: &[Move], places: &[usize], slot: u32) -> bool
    requires table { IsTable nodes.now }
    requires links { SlotLinksWithin (length nodes.now) links.now }
    requires few { length moves.now < 4294967296 }
    requires places { ArePlaces moves.now 127 places.now }
    requires slot { slot < 127 }
    ensures { IsTrue result → StaysInSlot nodes.now links.now (moves_tree moves.now) slot }
{
    let place = places[slot as usize];
    if place == 0 || slot == 0 || slot as usize > links.len() {
        return false;
    }
    let link = links[slot as usize - 1];
    let one = &moves[place - 1];
    link > 0 && keeps(nodes, link, one.parts, &one.below)
}

/// By slot, from 0 on, whether it does.
#[tactic(auto, using(crate::proofs::KeptSlots::staying))]
fn staying(
    alloc: Global,
    nodes: &[Node],
    links: &[u32],
    moves: &[Move],
    places: &[usize],
) -> Result<Vec<bool>, AllocError>
    requires table { IsTable nodes.now }
    requires links { SlotLinksWithin (length nodes.now) links.now }
    requires few { length moves.now < 4294967296 }
    requires places { ArePlaces moves.now 127 places.now }
    ensures { IfOk result (λ made. StayInSlots nodes.now links.now moves.now 127 made.items) }
{
    let mut stays = Vec::new(alloc);
    for slot in 0..SLOTS {
        stays.push(does_stay(nodes, links, moves, places, slot))?;
    }
    Ok(stays)
}

/// The slots that have a move, where each move is to the slot of the same number.
fn kept_slots(moves: &[Move], places: &[usize]) -> Option<Presence>
    requires few { length moves.now < 4294967296 }
    requires places { ArePlaces moves.now 127 places.now }
    ensures { IfSome result (KeepSlots moves.now) }
{
    let mut kept = Presence::empty();
    for slot in 1..SLOTS {
        let place = places[slot as usize];
        if place == 0 {
            continue;
        }
        if moves[place - 1].new != slot {
            return None;
        }
        kept.mark(slot);
    }
    Some(kept)
}

/// What is known of the moves of the records of a codec.
pub fn know_moves(alloc: Global, codec: &Codec, moves: &Moves) -> Result<SlotMoves, AllocError>
    ensures { IfOk result (KnowsMoves codec.now.nodes codec.now.slots moves.now) }
{
    let by_place = know_each(alloc, moves)?;
    let moves = moves.as_slice();
    let ordered = are_ordered(moves);
    let places = places_of(alloc, moves)?;
    let stays = staying(
        alloc,
        codec.nodes.as_slice(),
        codec.slots.as_slice(),
        moves,
        places.as_slice(),
    )?;
    let leaving = leaving_slots(
        alloc,
        codec.nodes.as_slice(),
        codec.slots.as_slice(),
        moves,
        places.as_slice(),
    )?;
    let kept = kept_slots(moves, places.as_slice());
    Ok(SlotMoves {
        ordered,
        places,
        stays,
        leaving,
        kept,
        by_place,
    })
}
