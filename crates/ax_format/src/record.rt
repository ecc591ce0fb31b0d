ghost use Rattle.std.specs.Prelude.{◌≤◌, length};
ghost use Rattle.ax_format.specs.Sizes.{longest_body};

use crate::value::{Entries, Octets};
use ax_lists::Sequence;

/// A record: its marked field reference numbers in ascending order, with their values.
pub struct Record {
    pub entries: Entries,
}

impl Drop for Record {
    fn drop(self) {
        let Record { entries: _entries } = self;
    }
}

/// The records of a block, in order.
pub type Records = Sequence<Record>;

/// A data block. A block whose category has no specification is opaque.
#[derive(Drop)]
pub enum Block {
    Read { category: u8, records: Records },
    Opaque { category: u8, octets: Octets },
}

/// A data block as it stands in the input: CAT and the octets after LEN, of which there are 1 to 65,532.
#[derive(Clone, Copy)]
pub struct RawBlock<'a> {
    pub category: u8,
    pub body: &'a [u8],
    pub ghost nonempty: { 1 ≤ length body.now },
    pub ghost within_block: { length body.now ≤ longest_body },
}
