//! The block loop of jobs that take no memory for a block.
ghost use Rattle.std.specs.Prelude.{◌≡◌, None, IsTrue};
ghost use Rattle.ax_endpoints.specs.Changes.{changes_of};
ghost use Rattle.ax_app.specs.Channels.{changes};
ghost use Rattle.ax_app.specs.Ends.{IsOfMigration};
ghost use Rattle.ax_app.specs.Working.{CompletesWork, Drives, DrivesWork, IsMigration, IsNew};

use crate::channels::Channels;
use crate::end::{DriveEnd, end_of};
use crate::work::{BlocksWork, Work};
use ax_blocks::{BlockReader, BlockWork};
use ax_endpoints::{Sink, Source};

/// The loop over a work that takes no memory.
fn drive_work<W: BlockWork, S: Source, K: Sink, R: Sink>(
    reader: &mut BlockReader,
    blocks: &mut W,
    io: Channels<'_, S, K, R>,
) -> DriveEnd
    requires fresh { reader.old ≡ record { limit = reader.old.limit; given = 0; ended = None } }
    requires sound { W.sound blocks.old }
    requires no_memory { IsTrue W.takes_memory → ⊥ }
    ensures { Drives (W.command blocks.old) reader.old.limit (changes S.Source K.Sink R.Sink io.entry io.exit) result }
{
    let Channels {
        source,
        out,
        report,
    } = io;
    end_of(ax_blocks::drive_blocks(reader, blocks, source, out, report))
}

/// The same, for each job.
fn drive_job<S: Source, K: Sink, R: Sink>(
    work: &mut Work<'_, '_>,
    io: Channels<'_, S, K, R>,
) -> DriveEnd
    requires new { IsNew work.old }
    ensures { DrivesWork work.old (changes S.Source K.Sink R.Sink io.entry io.exit) result }
{
    let reader = &mut work.reader;
    match &mut work.blocks {
        BlocksWork::Canon(blocks) => drive_work(reader, blocks, io),
        BlocksWork::Filter(blocks) => drive_work(reader, blocks, io),
        BlocksWork::Migrate(blocks) => drive_work(reader, blocks, io),
    }
}

/// Does a new work on each block of the source, up to the first refusal: each block is judged as a whole, then its lines are
/// written on the report, then its result on the output, one piece for each data block. It takes no memory.
///
/// - `Done` comes where the input was read to its end, with the number of its blocks.
/// - `InputRefused` names the input's first fault, `InputTooLong` an input past the work's limit, and `MigratedTooLong` the
///   first block with a record whose migrated form alone gives a data block of more than 65,535 octets, with the number of the
///   octets of the first such record's block. Where the migrated records are too many for one data block, several are written.
/// - `ReadFault`, `WriteFault` and `ReportFault` come only where the source, the output or the report counted a fault.
///
/// `MigratedTooLong` and `ReportFault` come only of a job of two editions. After every end the results of the blocks before
/// stand on the output; after `WriteFault` the report has all lines of the block whose octets failed, and the output a prefix of
/// its octets.
pub fn drive<S: Source, K: Sink, R: Sink>(
    work: &mut Work<'_, '_>,
    source: &mut S,
    out: &mut K,
    report: &mut R,
) -> DriveEnd
    requires new { IsNew work.old }
    ensures runs { DrivesWork work.old (changes_of S.Source K.Sink R.Sink source.old source.new out.old out.new report.old report.new) result }
    ensures completes { CompletesWork work.old (changes_of S.Source K.Sink R.Sink source.old source.new out.old out.new report.old report.new) result }
    ensures of_migration { IsOfMigration result → IsMigration work.old }
{
    let io = Channels {
        source,
        out,
        report,
    };
    drive_job(work, io)
}
