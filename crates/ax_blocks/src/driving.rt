//! The loop over the blocks of an input, for every block command.
ghost use Rattle.std.specs.Prelude.{◌≡◌, None, IsTrue};
ghost use Rattle.ax_endpoints.specs.Changes.{changes_of};
ghost use Rattle.ax_blocks.specs.Remembering.{Keeps, KeepsTold};
ghost use Rattle.ax_blocks.specs.Streams.{StreamRunsBy};
ghost use Rattle.ax_blocks.specs.declared.end.StreamEnd.TheVariants.{OutOfMemory};

use crate::end::{StreamEnd, reader_end, work_end};
use crate::reader::BlockReader;
use crate::work::BlockWork;
use ax_endpoints::{Sink, Source};

/// Reads the input to its end, block by block: each is judged as a whole, then its lines are written on the report, then
/// its octets on the output. It takes no memory but the work's.
pub fn drive_blocks<W: BlockWork, S: Source, K: Sink, R: Sink>(
    reader: &mut BlockReader,
    work: &mut W,
    source: &mut S,
    out: &mut K,
    report: &mut R,
) -> StreamEnd
    requires fresh { reader.old ≡ record { limit = reader.old.limit; given = 0; ended = None } }
    requires sound { W.sound work.old }
    ensures runs { StreamRunsBy (W.command work.old) reader.old (changes_of S.Source K.Sink R.Sink source.old source.new out.old out.new report.old report.new) result }
    ensures memory { result ≡ OutOfMemory → IsTrue W.takes_memory }
    ensures remembers { KeepsTold W.BlockWork work.old work.new reader.old (S.left source.old) result }
    ensures remembers_taken { Keeps W.BlockWork work.old work.new reader.old (changes_of S.Source K.Sink R.Sink source.old source.new out.old out.new report.old report.new) result }
{
    // Read for its range: there are fewer blocks than octets, so they can be counted.
    let _limit = reader.limit();
    let mut blocks = 0;
    'stream: loop {
        match reader.next(source) {
            Ok(Some(raw)) => match work.take(blocks, &raw, report, out) {
                Ok(()) => blocks += 1,
                Err(stop) => return work_end(stop, blocks),
            },
            Ok(None) => return StreamEnd::Done { blocks },
            Err(error) => return reader_end(error, blocks),
        }
    }
}
