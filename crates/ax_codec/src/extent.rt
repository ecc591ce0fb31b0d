//! How far values reach, by their octets alone.
ghost use Rattle.std.specs.Prelude.{◌≡◌, ◌<◌, ◌≤◌, length, map, IfOk};
ghost use Rattle.ax_lists.specs.Sizes.{list_bound};
ghost use Rattle.ax_codec.specs.Extents.{AreExtents, counted_extent, kind_extent, leading_octets};
ghost use Rattle.ax_codec.specs.Meaning.{kind_of, linked, linked_parts, meaning, meanings};
ghost use Rattle.ax_codec.specs.Octets.{octets_of};
ghost use Rattle.ax_codec.specs.Table.{IsNode, IsTable, LinksWithin};

use crate::node::Node;
use ax_format::{Counter, LastPart};
use std::alloc::{AllocError, Global};

/// How far a value reaches, where a few of its octets tell that without a look at its node.
#[derive(Clone, Copy)]
pub enum Extent {
    /// Up to its first octet with a clear FX bit, if that is one of its first `most` octets: each is a part of seven bits with its
    /// FX bit.
    OctetParts { most: u32 },
    /// Over a counter of one octet, and as many occurrences as it says, of `octets` octets each.
    Occurrences { octets: u32 },
    /// As its node tells.
    ByNode,
}

/// How many of these parts, from the first on, have seven bits and an FX bit.
fn octet_parts(nodes: &[Node], last: LastPart, parts: &[u32]) -> u32
    requires table { IsTable nodes.now }
    requires links { LinksWithin (length nodes.now) parts.now }
    requires few { length parts.now < list_bound }
    ensures { result ≡ leading_octets last (linked_parts (meanings nodes.now) parts.now) }
{
    let mut left = parts;
    let mut count = 0;
    while let Some((part, later)) = left.split_first() {
        if nodes[*part as usize - 1].part_width() != 7 || last.fx_width(later.len()) != 1 {
            break;
        }
        count += 1;
        left = later;
    }
    count
}

/// The extent of occurrences after such a counter, by the node of their kind.
fn counted_extent(nodes: &[Node], octets: &[u32], counter: Counter, inner: u32) -> Extent
    requires table { IsTable nodes.now }
    requires octets { octets.now ≡ map octets_of nodes.now }
    requires link { (0 < inner) × (inner ≤ length nodes.now) }
    ensures { result ≡ counted_extent counter (kind_of (linked (meanings nodes.now) inner)) }
{
    match counter {
        Counter::One => {
            let octets = octets[inner as usize - 1];
            if octets > 0 {
                Extent::Occurrences { octets }
            } else {
                Extent::ByNode
            }
        }
        Counter::Two => Extent::ByNode,
    }
}

/// The extent of a kind's values, by its node.
fn extent_of(nodes: &[Node], octets: &[u32], node: &Node) -> Extent
    requires table { IsTable nodes.now }
    requires octets { octets.now ≡ map octets_of nodes.now }
    requires node { IsNode (length nodes.now) (meanings nodes.now) node.now }
    ensures { result ≡ kind_extent (kind_of (meaning (meanings nodes.now) node.now)) }
{
    match node {
        Node::Extended { last, parts } => {
            let most = octet_parts(nodes, *last, parts.as_slice());
            if most > 0 {
                Extent::OctetParts { most }
            } else {
                Extent::ByNode
            }
        }
        Node::Counted { counter, inner } => counted_extent(nodes, octets, *counter, *inner),
        _ => Extent::ByNode,
    }
}

/// The extents of the values of each node.
pub fn extents_of(alloc: Global, nodes: &[Node], octets: &[u32]) -> Result<Vec<Extent>, AllocError>
    requires table { IsTable nodes.now }
    requires octets { octets.now ≡ map octets_of nodes.now }
    ensures extents { IfOk result (λ made. AreExtents nodes.now made.items) }
    ensures count { IfOk result (λ made. length made.items ≡ length nodes.now) }
{
    let mut made = Vec::with_capacity(alloc, nodes.len())?;
    for index in 0..nodes.len() {
        made.push(extent_of(nodes, octets, &nodes[index]))?;
    }
    Ok(made)
}
