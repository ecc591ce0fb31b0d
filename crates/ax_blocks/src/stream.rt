//! A block command over a stream.
ghost use Rattle.ax_endpoints.specs.Changes.{changes_of};
ghost use Rattle.ax_blocks.specs.Streams.{StreamRunsWhole, WantsMemory};

use crate::driving::drive_blocks;
use crate::end::StreamEnd;
use crate::reader::BlockReader;
use crate::work::BlockWork;
use ax_endpoints::{LONGEST_INPUT, Sink, Source};
use std::alloc::Global;

/// Does the work on each block of the input. The reader's memory is taken first.
pub fn run_blocks<W: BlockWork, S: Source, K: Sink, R: Sink>(
    alloc: Global,
    work: &mut W,
    source: &mut S,
    out: &mut K,
    report: &mut R,
) -> StreamEnd
    requires sound { W.sound work.old }
    ensures runs { StreamRunsWhole (W.command work.old) (changes_of S.Source K.Sink R.Sink source.old source.new out.old out.new report.old report.new) result }
    ensures memory { WantsMemory W.takes_memory (changes_of S.Source K.Sink R.Sink source.old source.new out.old out.new report.old report.new) result }
{
    let Ok(mut reader) = BlockReader::new(alloc, LONGEST_INPUT) else {
        return StreamEnd::OutOfMemory;
    };
    drive_blocks(&mut reader, work, source, out, report)
}
