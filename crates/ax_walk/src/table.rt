//! The nodes of a table as a walk over records reads them.
ghost use Rattle.std.specs.Prelude.{◌≡◌, map};
ghost use Rattle.ax_codec.specs.Facts.{IsTable-prop, IsRecordTable-prop};
ghost use Rattle.ax_codec.specs.Octets.{octets_of};
ghost use Rattle.ax_codec.specs.Table.{IsTable, IsRecordTable};

use ax_codec::{Codec, Node};
use ax_fspec::SlotMask;

/// The nodes of a table, and for each the octets of its fixed kind: 0 where it is no such kind, or not of whole octets.
#[derive(Clone, Copy)]
pub(crate) struct Table<'c> {
    pub(crate) nodes: &'c [Node],
    pub(crate) octets: &'c [u32],
    ghost table: { IsTable nodes.now } by { IsTable-prop nodes.now },
    ghost sizes: { octets.now ≡ map octets_of nodes.now },
}

/// The slots of a record or of a compound, in their table: the mask has those that aren't spare, and each of these has the link
/// of its node; 0 is that of a spare one.
#[derive(Clone, Copy)]
pub(crate) struct LinkedSlots<'c> {
    pub(crate) table: Table<'c>,
    pub(crate) mask: &'c SlotMask,
    pub(crate) links: &'c [u32],
    ghost slots: { IsRecordTable table.nodes.now links.now mask.now } by { IsRecordTable-prop table.nodes.now links.now mask.now },
}

impl<'c> Table<'c> {
    /// That of a codec.
    #[inline(always)]
    pub(crate) fn of(codec: &'c Codec) -> Table<'c>
        ensures { result.nodes.now ≡ codec.now.nodes }
    {
        Table {
            nodes: codec.nodes.as_slice(),
            octets: codec.nodes.octets(),
        }
    }
}

impl<'c> LinkedSlots<'c> {
    /// Those of a codec's records.
    #[inline(always)]
    pub(crate) fn of(codec: &'c Codec) -> LinkedSlots<'c>
        ensures nodes { result.table.nodes.now ≡ codec.now.nodes }
        ensures mask { result.mask.now ≡ codec.now.mask }
        ensures links { result.links.now ≡ codec.now.slots }
    {
        LinkedSlots {
            table: Table::of(codec),
            mask: &codec.mask,
            links: codec.slots.as_slice(),
        }
    }
}
