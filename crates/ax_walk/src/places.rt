//! Where the values of marked slots stand.
ghost use Rattle.std.specs.Prelude.{◌≡◌, IsTrue};
ghost use Rattle.ax_bits.specs.Bits.{bits};
ghost use Rattle.ax_format.specs.Canonical.{canon};
ghost use Rattle.ax_walk.specs.Placing.{IsLeastItem, IsLeastItem-prop};

use crate::item::ItemView;
use ax_codec::Codec;
use ax_fspec::Presence;

/// The octets of a value in a body: from `start` up to `end`, octets from 0. `least` tells that they are known to be its
/// canonical spelling.
#[derive(Clone, Copy)]
pub struct Window {
    pub start: u32,
    pub end: u32,
    pub least: bool,
}

/// Where the values of the marked slots of a record or a compound stand, by slot number. A walk fills it, and it takes no
/// memory.
#[derive(Drop)]
pub struct Places {
    pub(crate) marked: Presence,
    pub(crate) windows: [Window; 127],
}

impl Places {
    /// No slot is marked.
    #[inline(always)]
    pub fn new() -> Places {
        Places {
            marked: Presence::empty(),
            windows: [Window {
                start: 0,
                end: 0,
                least: false,
            }; 127],
        }
    }
}

/// A record or a compound that begins at octet `at` of a body, and where the values of its slots stand there.
#[derive(Clone, Copy)]
pub struct PlacedSlots<'v, 'c, 'a> {
    pub codec: &'c Codec,
    pub slots: &'v [u32],
    pub body: &'a [u8],
    pub at: u32,
    pub places: &'v Places,
}

/// An item that was found, and whether its octets are known to be the canonical spelling of its value.
#[derive(Drop)]
pub struct FoundItem<'c, 'a> {
    pub item: ItemView<'c, 'a>,
    pub least: bool,
    ghost canonical: { IsLeastItem item least } by { IsLeastItem-prop item least },
}
