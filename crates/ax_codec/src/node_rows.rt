//! Rows of the slots of compounds.
ghost use Rattle.std.specs.Prelude.{◌≡◌, ◌≤◌, length, map, IfOk};
ghost use Rattle.std.specs.List.{AllByRecursion};
ghost use Rattle.ax_codec.specs.NodeRows.{AreNodeRows, EachRows, node_slots};
ghost use Rattle.ax_codec.specs.Octets.{octets_of};
ghost use Rattle.ax_codec.specs.Table.{IsTable};

use crate::node::Node;
use ax_rows::SlotRows;
use std::alloc::{AllocError, Global};

/// For how many presence octets of compounds a category has rows, each of at most 5,200 octets: so they take less than 1 MB.
const MOST_FIELDS: u32 = 192;

/// The rows of a node's slots, where it is a compound and `left` has its presence octets, which are taken from it; else those of
/// no slot.
#[tactic(auto, using(crate::proofs::NodeRowLists::rows))]
fn node_rows(
    alloc: Global,
    node: &Node,
    octets: &[u32],
    left: &mut u32,
) -> Result<SlotRows, AllocError>
    requires links { AllByRecursion (λ link. link ≤ length octets.now) (node_slots node.now) }
    ensures { IfOk result (AreNodeRows octets.now node.now) }
{
    let Node::Compound { slots, .. } = node else {
        return Ok(SlotRows::new(alloc));
    };
    let fields = slots.count().div_ceil(7);
    if fields > *left {
        return Ok(SlotRows::new(alloc));
    }
    *left -= fields;
    SlotRows::of(alloc, octets, slots.as_slice())
}

/// The rows of compounds, by node.
#[tactic(auto, using(crate::proofs::NodeRowLists::rows))]
pub fn rows_of_compounds(
    alloc: Global,
    nodes: &[Node],
    octets: &[u32],
) -> Result<Vec<SlotRows>, AllocError>
    requires table { IsTable nodes.now }
    requires octets { octets.now ≡ map octets_of nodes.now }
    ensures rows { IfOk result (λ made. EachRows octets.now nodes.now made.items) }
    ensures count { IfOk result (λ made. length made.items ≡ length nodes.now) }
{
    let mut made = Vec::with_capacity(alloc, nodes.len())?;
    let mut left = MOST_FIELDS;
    for index in 0..nodes.len() {
        made.push(node_rows(alloc, &nodes[index], octets, &mut left)?)?;
    }
    Ok(made)
}
