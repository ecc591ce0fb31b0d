//! What a converted record lacks, and the line of it. Nothing here takes memory.
ghost use Rattle.std.specs.Prelude.{◌≡◌};
ghost use Rattle.ax_endpoints.specs.Changes.{Wrote, sink_change};
ghost use Rattle.ax_rescale.specs.Missed.{missed_word, missed_line};

use ax_endpoints::{Sink, SinkFailed};
use ax_format::Text;
use ax_report::write_entry;

/// An entry that the converted record doesn't have: the number of its record in the block, from 0, and the text of its path.
pub struct Miss {
    pub record_at: u32,
    pub path: Text,
    /// The new edition has the item with other scales, and one of the value's numbers has no converted number; otherwise the
    /// new edition lacks the item, or has it in another form.
    pub unconverted: bool,
}

impl Drop for Miss {
    fn drop(self) {
        let Miss {
            record_at: _record_at,
            path: _path,
            unconverted: _unconverted,
        } = self;
    }
}

/// What is said of the entry in one word.
fn word_of(unconverted: bool) -> &'static [u8]
    ensures { result.now ≡ missed_word unconverted }
{
    if unconverted { b"unconverted" } else { b"lost" }
}

/// Writes the line `unconverted block N record M PATH` or `lost block N record M PATH` of a miss in the block of that number,
/// up to its line feed. At `SinkFailed` a prefix of it was added, not all of it, and the report counted a fault.
pub fn miss_line<R: Sink>(report: &mut R, block: u64, miss: &Miss) -> Result<(), SinkFailed>
    ensures { Wrote (sink_change R.Sink report.old report.new) result (missed_line block miss.now) }
{
    let path = miss.path.as_slice();
    write_entry(
        report,
        word_of(miss.unconverted),
        block,
        miss.record_at,
        path,
    )
}
