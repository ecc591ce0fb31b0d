//! What was made of a block, written.
ghost use Rattle.ax_convert_work.specs.Making.{all_octets};
ghost use Rattle.ax_endpoints.specs.Changes.{Wrote, sink_change};
ghost use Rattle.ax_rescale.specs.Misses.{missed_lines};

use crate::blocks::DataBlocks;
use ax_endpoints::{Sink, SinkFailed, write_text};
use ax_rescale::{Misses, miss_line};

/// Writes the lines of what is missed of the block of that number. At `SinkFailed` a prefix of them was added.
pub(crate) fn write_misses<R: Sink>(
    report: &mut R,
    number: u64,
    misses: &Misses,
) -> Result<(), SinkFailed>
    ensures { Wrote (sink_change R.Sink report.old report.new) result (missed_lines number misses.now) }
{
    for one in misses.as_slice() {
        miss_line(report, number, one)?;
    }
    Ok(())
}

/// Writes data blocks, each as one piece. At `SinkFailed` those before are written, and a prefix of the one that failed.
pub(crate) fn write_blocks<K: Sink>(out: &mut K, blocks: &DataBlocks) -> Result<(), SinkFailed>
    ensures { Wrote (sink_change K.Sink out.old out.new) result (all_octets blocks.now) }
{
    for one in blocks.as_slice() {
        write_text(out, one.octets.as_slice())?;
    }
    Ok(())
}
