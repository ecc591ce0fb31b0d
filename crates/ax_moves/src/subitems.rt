//! Compounds that stay as they are because each subitem that is there does.
ghost use Rattle.std.specs.Prelude.{◌≡◌, ◌⊎◌, ◌<◌, ◌≤◌, IsTrue, IfOk, IfSome, length};
ghost use Rattle.ax_relation.specs.PlainMoves.{moves_tree};
ghost use Rattle.ax_moves.specs.BySlot.{ArePlaces};
ghost use Rattle.ax_moves.specs.Subitems.{LacksIn, OthersRemain, RemainsIn, StayWithout, StaysWithout};
ghost use Rattle.ax_codec.specs.Table.{IsTable, SlotLinksWithin};
ghost use Rattle.ax_walk.specs.Placing.{IsPlaced};

use crate::bare::has_none_of;
use crate::by_slot::{SLOTS, are_ordered, own_move};
use crate::keeping::is_leaf;
use crate::whole::item_of;
use ax_codec::Node;
use ax_fspec::Presence;
use ax_relation::Move;
use ax_walk::PlacedSlots;
use std::alloc::{AllocError, Global};

/// Whether the subitem of a slot is sure to keep its slot and its canonical octets as it moves: it is no compound, and of an
/// extended one all parts move. Where the moves aren't in order none is.
fn remains(nodes: &[Node], links: &[u32], moves: &[Move], ordered: bool, slot: u32) -> bool
    requires table { IsTable nodes.now }
    requires links { SlotLinksWithin (length nodes.now) links.now }
    requires slot { 1 ≤ slot }
    ensures { IsTrue result → IsTrue ordered × RemainsIn nodes.now links.now (moves_tree moves.now) slot }
{
    match own_move(links, moves, ordered, slot) {
        Some(one) => is_leaf(nodes, links[slot as usize - 1], one.parts),
        None => false,
    }
}

/// The slots of a compound whose subitems may not remain. Where the moves aren't in order that is each slot.
fn leaving(nodes: &[Node], links: &[u32], moves: &[Move]) -> Presence
    requires table { IsTable nodes.now }
    requires links { SlotLinksWithin (length nodes.now) links.now }
    ensures { OthersRemain nodes.now links.now (moves_tree moves.now) 127 result }
{
    let ordered = are_ordered(moves);
    let mut leaving = Presence::empty();
    for slot in 1..SLOTS {
        if remains(nodes, links, moves, ordered, slot) {
            continue;
        }
        leaving.mark(slot);
    }
    leaving
}

/// The same of the compound in a slot, if one moves from it.
fn leaving_in(
    nodes: &[Node],
    links: &[u32],
    moves: &[Move],
    places: &[usize],
    slot: u32,
) -> Option<Presence>
    requires table { IsTable nodes.now }
    requires links { SlotLinksWithin (length nodes.now) links.now }
    requires few { length moves.now < 4294967296 }
    requires places { ArePlaces moves.now 127 places.now }
    requires slot { slot < 127 }
    ensures { IfSome result (StaysWithout nodes.now links.now (moves_tree moves.now) slot) }
{
    let place = places[slot as usize];
    if place == 0 || slot == 0 || slot as usize > links.len() {
        return None;
    }
    let link = links[slot as usize - 1];
    if link == 0 {
        return None;
    }
    let one = &moves[place - 1];
    match &nodes[link as usize - 1] {
        Node::Compound { slots, .. } => {
            Some(leaving(nodes, slots.as_slice(), one.below.as_slice()))
        }
        _ => None,
    }
}

/// By slot, from 0 on, the same.
#[tactic(auto, using(crate::proofs::SubitemSteps::leaving))]
pub fn leaving_slots(
    alloc: Global,
    nodes: &[Node],
    links: &[u32],
    moves: &[Move],
    places: &[usize],
) -> Result<Vec<Option<Presence>>, AllocError>
    requires table { IsTable nodes.now }
    requires links { SlotLinksWithin (length nodes.now) links.now }
    requires few { length moves.now < 4294967296 }
    requires places { ArePlaces moves.now 127 places.now }
    ensures { IfOk result (λ made. StayWithout nodes.now links.now moves.now 127 made.items) }
{
    let mut leaving = Vec::new(alloc);
    for slot in 0..SLOTS {
        leaving.push(leaving_in(nodes, links, moves, places, slot))?;
    }
    Ok(leaving)
}

/// Whether what stands in a slot is sure to be a compound without subitems that may not stay, where these are known.
#[inline(always)]
fn lacks_leaving(whole: &PlacedSlots<'_, '_, '_>, slot: u32, leaving: &Option<Presence>) -> bool
    requires placed { IsPlaced whole.now }
    ensures { IsTrue result → LacksIn whole.now slot leaving.now }
{
    let Some(leaving) = leaving else {
        return false;
    };
    match item_of(whole, slot) {
        Some(found) => has_none_of(&found.item, leaving),
        None => false,
    }
}

/// Whether the canonical octets of what stands in a slot stay as it moves: those of each value of the slot do, or the
/// compound has no subitem that may not stay.
#[inline(always)]
pub fn is_copied(
    whole: &PlacedSlots<'_, '_, '_>,
    slot: u32,
    stays: bool,
    leaving: &Option<Presence>,
) -> bool
    requires placed { IsPlaced whole.now }
    ensures { IsTrue result → IsTrue stays ⊎ LacksIn whole.now slot leaving.now }
{
    stays || lacks_leaving(whole, slot, leaving)
}
