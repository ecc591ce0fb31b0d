//! The nodes of a table: kinds and parts that lead to each other by links.
ghost use Rattle.std.specs.Prelude.{◌≡◌, ◌<◌, ◌≤◌, ◌++◌, ◌∷◌, ◌↔◌, [], length, map, slice_get, IsSome, IfSome, OnOk, OnErr};
ghost use Rattle.std.specs.List.{AllByRecursion};
ghost use Rattle.std.specs.Option.{option_copied};
ghost use Rattle.ax_rows.specs.Rows.{AreRows};
ghost use Rattle.ax_lists.specs.Sizes.{list_bound};
ghost use Rattle.ax_codec.specs.Octets.{octets_of};
ghost use Rattle.ax_codec.specs.Meaning.{fixed_bits, part_bits};
ghost use Rattle.ax_codec.specs.Extents.{AreExtents};
ghost use Rattle.ax_codec.specs.NodeRows.{EachRows};
ghost use Rattle.ax_codec.specs.Table.{IsTable};

use crate::extent::{Extent, extents_of};
use crate::node_rows::rows_of_compounds;
use ax_format::{Counter, LastPart};
use ax_fspec::SlotMask;
use ax_lists::Sequence;
use ax_rows::{Rows, SlotRows};
use std::alloc::{AllocError, Global};
use std::marker::Model;

/// Links to nodes, in order. A link is 0 for a spare slot and else 1 more than a node's number, which counts from 0.
pub type Links = Sequence<u32>;

/// The nodes of a table, in order. Contracts see that list alone; how many octets each fixed kind has stands beside it,
/// so that octets are walked over without a look at the node, and so do the rows of a set of slots, by which records are, and
/// those of compounds.
pub struct Nodes {
    items: Vec<Node>,
    octets: Vec<u32>,
    rows: SlotRows,
    /// By node the rows of a compound's slots; of no slot where it is none, or has no rows.
    compounds: Vec<SlotRows>,
    /// By node how far its values reach.
    extents: Vec<Extent>,
}

impl Drop for Nodes {
    fn drop(self) {
        let Nodes {
            items: _items,
            octets: _octets,
            rows: _rows,
            compounds: _compounds,
            extents: _extents,
        } = self;
    }
}

impl Model for Nodes {
    ghost use Rattle.std.specs.Prelude.{◌≡◌, ◌<◌, List, length, map};
    ghost use Rattle.ax_rows.specs.Rows.{AreRowsOf};
    ghost use Rattle.ax_codec.specs.Extents.{AreExtents};
    ghost use Rattle.ax_codec.specs.NodeRows.{EachRows};
    ghost use Rattle.ax_codec.specs.Octets.{octets_of};
    ghost use Rattle.ax_codec.specs.declared.node.Node.{Node};
    ghost use Rattle.ax_lists.specs.Sizes.{list_bound};

    ghost Value = { List Node };

    ghost view = { λ n. n.items.items };

    ghost invariant = { λ n. (length n.items.items < list_bound) × (n.octets.items ≡ map octets_of n.items.items) × AreRowsOf n.octets.items n.rows × EachRows n.octets.items n.items.items n.compounds.items × AreExtents n.items.items n.extents.items };
}

impl Nodes {
    /// No nodes. Takes no memory.
    pub fn new(alloc: Global) -> Self
        ensures { result ≡ [] }
    {
        Nodes {
            items: Vec::new(alloc),
            octets: Vec::new(alloc),
            rows: SlotRows::new(alloc),
            compounds: Vec::new(alloc),
            extents: Vec::new(alloc),
        }
    }

    /// The number of nodes.
    pub fn count(&self) -> u32
        ensures { result ≡ length self.now }
    {
        self.items.len() as u32
    }

    /// The node of that number, from 0. None comes exactly past the end.
    pub fn get(&self, index: u32) -> Option<&Node>
        ensures value { option_copied result ≡ slice_get self.now index }
        ensures within { IsSome result ↔ index < length self.now }
    {
        self.items.get(index as usize)
    }

    /// The nodes in order.
    pub fn as_slice(&self) -> &[Node]
        ensures members { result.now ≡ self.now }
        ensures bound { length self.now < list_bound }
    {
        self.items.as_slice()
    }

    /// For each node the octets of its fixed kind; 0 where it is no such kind, or not of whole octets.
    pub fn octets(&self) -> &[u32]
        ensures { result.now ≡ map octets_of self.now }
    {
        self.octets.as_slice()
    }

    /// The rows of these slots. None comes where rows were made for no slots, for others, or for more than 63.
    #[inline]
    pub fn rows_for(&self, slots: &[u32]) -> Option<Rows<'_>>
        ensures { IfSome result (λ rows. AreRows (map octets_of self.now) slots.now rows.start.now rows.steps.now) }
    {
        self.rows.rows_for(slots)
    }

    /// The rows of the slots of compounds, by node, for the first nodes; of no slot where a node is no compound or has no rows.
    #[inline]
    pub fn compound_rows(&self) -> &[SlotRows]
        ensures { EachRows (map octets_of self.now) self.now result.now }
    {
        self.compounds.as_slice()
    }

    /// How far the values of nodes reach, by node, for the first nodes.
    #[inline]
    pub fn extents(&self) -> &[Extent]
        ensures { AreExtents self.now result.now }
    {
        self.extents.as_slice()
    }

    /// Makes the rows of these slots, by which records of them are walked over, and those of compounds, as far as their rows have
    /// room.
    pub fn make_rows(&mut self, alloc: Global, slots: &[u32]) -> Result<(), AllocError>
        requires table { IsTable self.old }
        requires slots { AllByRecursion (λ link. link ≤ length self.old) slots.now }
        ensures { self.new ≡ self.old }
    {
        let rows = SlotRows::of(alloc, self.octets.as_slice(), slots)?;
        let compounds = rows_of_compounds(alloc, self.items.as_slice(), self.octets.as_slice())?;
        let extents = extents_of(alloc, self.items.as_slice(), self.octets.as_slice())?;
        self.rows = rows;
        self.compounds = compounds;
        self.extents = extents;
        // The list is whole, so the room that is left over is given back.
        self.items.shrink_to_fit();
        self.octets.shrink_to_fit();
        Ok(())
    }

    /// Appends one node. Want of memory leaves the list as it was. The rows are those of no slot then.
    pub fn push(&mut self, one: Node) -> Result<(), AllocError>
        requires room { length self.old < 4294967295 }
        ensures ok { OnOk result (self.new ≡ self.old ++ one ∷ []) }
        ensures err { OnErr result (self.new ≡ self.old) }
    {
        self.rows.clear();
        self.compounds.clear();
        self.extents.clear();
        self.octets.push(one.octets())?;
        if self.items.push(one).is_err() {
            let _ = self.octets.pop();
            return Err(AllocError);
        }
        Ok(())
    }
}

/// A kind, or a part of one. Widths are in bits, without FX.
pub enum Node {
    /// An element, or spare bits.
    Element { width: u32 },
    /// Members one after another, each an element or a group.
    Group { width: u32, members: Links },
    /// A part of an extended or closed item: members one after another, as in a group.
    Part { width: u32, members: Links },
    /// The parts of an extended or closed item, each a part's node, and whether the last has an FX bit.
    Extended { last: LastPart, parts: Links },
    /// Occurrences of any kind, after their number in a counter of one octet or two.
    Counted { counter: Counter, inner: u32 },
    /// Occurrences of a fixed kind, each with its FX bit.
    ByFx { inner: u32 },
    /// Octets after their length.
    Explicit,
    /// Subitems after a presence field; the mask has the slots that aren't spare.
    Compound { mask: SlotMask, slots: Links },
}

impl Drop for Node {
    fn drop(self) {
        match self {
            Node::Element { width: _width } => {}
            Node::Group {
                width: _width,
                members: _members,
            } => {}
            Node::Part {
                width: _width,
                members: _members,
            } => {}
            Node::Extended {
                last: _last,
                parts: _parts,
            } => {}
            Node::Counted {
                counter: _counter,
                inner: _inner,
            } => {}
            Node::ByFx { inner: _inner } => {}
            Node::Explicit => {}
            Node::Compound {
                mask: _mask,
                slots: _slots,
            } => {}
        }
    }
}

impl Node {
    /// The octets of a fixed kind of whole octets; else 0.
    #[inline]
    pub fn octets(&self) -> u32
        ensures { result ≡ octets_of self.now }
    {
        let width = self.fixed_width();
        if width % 8 == 0 { width / 8 } else { 0 }
    }

    /// The bits of a fixed kind; else 0.
    #[inline]
    pub fn fixed_width(&self) -> u32
        ensures { result ≡ fixed_bits self.now }
    {
        match self {
            Node::Element { width } => *width,
            Node::Group { width, .. } => *width,
            _ => 0,
        }
    }

    /// The bits of a part without its FX bit; else 0.
    #[inline]
    pub fn part_width(&self) -> u32
        ensures { result ≡ part_bits self.now }
    {
        match self {
            Node::Part { width, .. } => *width,
            _ => 0,
        }
    }
}
