//! What walks over the values of slots that have no fixed octets.
ghost use Rattle.std.specs.Prelude.{◌<◌, ◌≤◌, length, ℕ, List, IfSome, IsTrue};
ghost use Rattle.ax_format.specs.InBounds.{InBounds};
ghost use Rattle.ax_codec.specs.Table.{kind_at};
ghost use Rattle.ax_codec.specs.declared.node.Node.{Node};
ghost use Rattle.ax_walk.specs.Walking.{WalksFrom};

use crate::notes::Notes;
use crate::octets::walk_node;
use crate::start::Start;
use crate::table::Table;

/// What walks over the values of slots that have no fixed octets.
pub(crate) trait ValueWalk {
    // Whether it can be used with these nodes, and the octets of their fixed kinds.
    ghost fits: { Self → List Node → List ℕ → Type 0 };

    /// The octet after the value at the start, of the kind that a link leads to. None says nothing.
    fn walk_value(
        &self,
        table: Table<'_>,
        link: u32,
        start: Start<'_>,
        notes: &mut Notes,
    ) -> Option<u32>
        requires fits { fits self.now table.nodes.now table.octets.now }
        requires link { (0 < link) × (link ≤ length table.nodes.now) }
        requires bounds { InBounds (kind_at table.nodes.now link) }
        ensures end { IfSome result (λ end. WalksFrom (kind_at table.entry.nodes.now link) start.entry end notes.new.least) }
        ensures falls { IsTrue notes.new.least → IsTrue notes.old.least };
}

/// Walks by the nodes alone.
#[derive(Drop)]
pub(crate) struct ByNodes;

impl ValueWalk for ByNodes {
    ghost fits = { λ s nodes octets. Unit {0} };

    #[inline(always)]
    fn walk_value(
        &self,
        table: Table<'_>,
        link: u32,
        start: Start<'_>,
        notes: &mut Notes,
    ) -> Option<u32> {
        walk_node(table.nodes, link, start, notes)
    }
}
