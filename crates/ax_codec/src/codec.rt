//! The table of one specification.
ghost use Rattle.std.specs.Prelude.{◌≡◌};
ghost use Rattle.ax_codec.specs.Bare.{StandsForSome};
ghost use Rattle.ax_codec.specs.Facts.{IsTable-prop, IsRecordTable-prop};
ghost use Rattle.ax_codec.specs.Table.{IsTable, IsRecordTable};

use crate::node::{Links, Nodes};
use ax_fspec::SlotMask;

/// The flat table of a specification without flaw: the slots of its records, and the nodes that they lead to. Titles,
/// names and contents are no part of it.
///
/// Each link of a node leads to a node before it, and each link of `slots` to a node that is there. Widths are in bits,
/// without FX.
pub struct Codec {
    pub category: u8,
    /// The slots of a record that aren't spare.
    pub mask: SlotMask,
    /// A link for each slot of a record: 0 for a spare slot, and else 1 more than a node's number.
    pub slots: Links,
    pub nodes: Nodes,
    ghost table: { IsTable nodes } by { IsTable-prop nodes },
    ghost records: { IsRecordTable nodes slots mask } by { IsRecordTable-prop nodes slots mask },
    ghost stands: { StandsForSome category slots nodes },
}

impl Drop for Codec {
    fn drop(self) {
        let Codec {
            category: _category,
            mask: _mask,
            slots: _slots,
            nodes: _nodes,
        } = self;
    }
}

impl Codec {
    /// The category of the specifications that the codec stands for.
    pub fn category(&self) -> u8
        ensures { result ≡ self.now.category }
    {
        self.category
    }
}
