//! What is lost of a block.

use ax_format::Text;
use ax_lists::Sequence;

/// A lost entry: the number of its record in the block, from 0, and the text of its path.
pub struct LossEntry {
    pub record_at: u32,
    pub path: Text,
}

impl Drop for LossEntry {
    fn drop(self) {
        let LossEntry {
            record_at: _record_at,
            path: _path,
        } = self;
    }
}

/// Losses, by record and, in a record, by ascending field reference number, a compound before its subitems, an extended item before its parts.
pub type LossList = Sequence<LossEntry>;
