//! Items whose octets stay as they are.
ghost use Rattle.std.specs.Prelude.{◌≡◌, ◌+◌, ◌<◌, ◌≤◌, false, length, IsTrue};
ghost use Rattle.ax_bits.specs.Bits.{bits};
ghost use Rattle.ax_relation.specs.Moves.{MovesTree};
ghost use Rattle.ax_relation.specs.PlainMoves.{move_tree, moves_tree};
ghost use Rattle.ax_moves.specs.Keeping.{IsLeaf, KeepsAll, MovesWhole, StaysIn};
ghost use Rattle.ax_moves.specs.Items.{item_canon_by};
ghost use Rattle.ax_format.specs.Tree.{slots_of};
ghost use Rattle.ax_codec.specs.Meaning.{linked_slots, meanings};
ghost use Rattle.ax_codec.specs.Table.{IsTable, SlotLinksWithin, kind_at};

use ax_codec::Node;
use ax_relation::{Move, Moves};
use ax_walk::FoundItem;

/// Whether the kind of a link is sure to be no compound and, if it is extended, to have no more than so many parts.
#[inline]
pub fn is_leaf(nodes: &[Node], link: u32, count: u32) -> bool
    requires table { IsTable nodes.now }
    requires link { (0 < link) × (link ≤ length nodes.now) }
    ensures { IsTrue result → IsLeaf count (kind_at nodes.now link) }
{
    match &nodes[link as usize - 1] {
        Node::Part { .. } => false,
        Node::Compound { .. } => false,
        Node::Extended { parts, .. } => parts.count() <= count,
        _ => true,
    }
}

/// Whether a move leaves the whole value of the slot of that number, which has the kind of the link and isn't a compound, in
/// its slot.
#[inline]
fn stays(nodes: &[Node], link: u32, slot: usize, one: &Move) -> bool
    requires table { IsTable nodes.now }
    requires link { (0 < link) × (link ≤ length nodes.now) }
    ensures { IsTrue result → StaysIn slot (kind_at nodes.now link) (move_tree one.now) }
{
    one.old as usize == slot && one.new as usize == slot && is_leaf(nodes, link, one.parts)
}

/// Whether each slot of a compound stays, none is a compound itself, and nothing else moves.
fn keeps_all(nodes: &[Node], slots: &[u32], moves: &Moves) -> bool
    requires table { IsTable nodes.now }
    requires links { SlotLinksWithin (length nodes.now) slots.now }
    ensures { IsTrue result → KeepsAll 1 (slots_of (linked_slots (meanings nodes.now) slots.now)) (moves_tree moves.now) }
{
    let moves = moves.as_slice();
    let mut next = 0;
    for index in 0..slots.len() {
        let link = slots[index];
        if link == 0 {
            continue;
        }
        if next >= moves.len() || !stays(nodes, link, index + 1, &moves[next]) {
            return false;
        }
        next += 1;
    }
    next == moves.len()
}

/// Whether the canonical octets of each value of a link's kind stay as it moves, of an extended one so many first parts: it is
/// no compound and has no more parts than those, or it is one and each of its slots stays.
#[inline]
pub fn keeps(nodes: &[Node], link: u32, count: u32, moves: &Moves) -> bool
    requires table { IsTable nodes.now }
    requires link { (0 < link) × (link ≤ length nodes.now) }
    ensures { IsTrue result → MovesWhole nodes.now link count (moves_tree moves.now) }
{
    if is_leaf(nodes, link, count) {
        return true;
    }
    match &nodes[link as usize - 1] {
        Node::Compound { slots, .. } => keeps_all(nodes, slots.as_slice(), moves),
        _ => false,
    }
}

/// Whether an item's octets are sure to be the canonical ones of its value whatever moves, so that they can be copied: they are
/// those of the value, and it is no compound; where it is extended, its kind has no more parts than so many, or it has no more
/// octets, each part having one at least.
pub fn moves_whole(found: &FoundItem<'_, '_>, count: u32) -> bool
    requires whole { found.now.item.by_fx ≡ false }
    ensures { IsTrue result → (ms : MovesTree) → item_canon_by count ms found.now.item ≡ bits found.now.item.body.now }
{
    if !found.least {
        return false;
    }
    match found.item.node() {
        Node::Compound { .. } => false,
        Node::Extended { parts, .. } => {
            parts.count() <= count || found.item.octets().len() <= count as usize
        }
        _ => true,
    }
}
