//! What is made of one block.
ghost use Rattle.std.specs.Prelude.{◌≡◌, IsErrOf};
ghost use Rattle.ax_migrate_views.specs.Blocks.{old_tree};
ghost use Rattle.ax_migrate_views.specs.Losses.{TellsLosses, WritesLosses};
ghost use Rattle.ax_migrate_views.specs.Taking.{TakesBlock};
ghost use Rattle.ax_endpoints.specs.Changes.{sink_change};
ghost use Rattle.ax_blocks.specs.BlockTaking.{WritesOctets};
ghost use Rattle.ax_format.specs.CanonicalOctets.{framed};
ghost use Rattle.ax_blocks.specs.declared.work.WorkStop.TheVariants.{OutOfMemory};
ghost use Rattle.ax_walk.specs.Views.{SpellsSome};

use crate::migrator::Migrator;
use crate::output::{Outputs, lay_opaque};
use crate::pieces::{KnownRange, first_too_long, write_blocks};
use crate::ranges::Fit;
use ax_blocks::{NumberedBlock, WorkStop, write_piece};
use ax_endpoints::{Sink, SinkFailed, write_text};
use ax_format::RawBlock;
use ax_walk::scan;

/// The most octets of a data block, and of lines that are kept.
const LONGEST: u32 = 65_535;

/// Writes a block of another category as it is, as one piece.
pub(crate) fn copy_block<K: Sink>(
    raw: &RawBlock<'_>,
    out: &mut K,
    outputs: &mut Outputs,
) -> Result<(), WorkStop>
    ensures { WritesOctets (sink_change K.Sink out.old out.new) (framed raw.now.category raw.now.body.now) result }
{
    let count = lay_opaque(raw, &mut outputs.block);
    write_piece(out, &outputs.block[..count as usize])
}

/// Migrates a block of the old edition's category. It is judged as a whole before the first line of its losses: Fault is the
/// first fault of its body, and TooLong comes exactly where one migrated record alone has too many octets for a data block, with
/// those of the first such record's. After all lines its blocks are written, each as one piece.
pub(crate) fn migrate_block<R: Sink, K: Sink>(
    migrator: &Migrator<'_>,
    block: NumberedBlock<'_, '_>,
    report: &mut R,
    out: &mut K,
    outputs: &mut Outputs,
) -> Result<(), WorkStop>
    requires category { block.raw.now.category ≡ (old_tree migrator.now).category }
    ensures takes { TakesBlock migrator.now block.entry (sink_change K.Sink out.old out.new) (sink_change R.Sink report.old report.new) result }
    ensures memory { IsErrOf result OutOfMemory → ⊥ }
{
    let (number, body) = (block.number, block.raw.body);
    let laid = match migrator.lay(number, body, &mut outputs.block, &mut outputs.lines) {
        Ok(laid) => laid,
        Err(fault) => return Err(WorkStop::Fault(fault)),
    };
    outputs.laid = laid;
    if laid.octets > LONGEST {
        return migrate_long(migrator, block, report, out, outputs);
    }
    match report_losses(migrator, block, outputs, report) {
        Ok(()) => write_piece(out, &outputs.block[..laid.octets as usize]),
        Err(_) => Err(WorkStop::ReportFault),
    }
}

/// Migrates a block whose migrated records don't come into one data block. Its lines were laid. It has the ranges that it keeps on
/// its stack, which are set at each call, and so stands apart.
#[inline(never)]
fn migrate_long<R: Sink, K: Sink>(
    migrator: &Migrator<'_>,
    block: NumberedBlock<'_, '_>,
    report: &mut R,
    out: &mut K,
    outputs: &mut Outputs,
) -> Result<(), WorkStop>
    requires category { block.raw.now.category ≡ (old_tree migrator.now).category }
    requires spelled { SpellsSome migrator.now.codec.now block.raw.now.body.now }
    requires told { TellsLosses migrator.now block.raw.now.body.now block.number outputs.old.laid.lines outputs.old.lines.items }
    ensures takes { TakesBlock migrator.now block.entry (sink_change K.Sink out.old out.new) (sink_change R.Sink report.old report.new) result }
    ensures memory { IsErrOf result OutOfMemory → ⊥ }
{
    let view = match scan(migrator.old(), block.raw.body) {
        Ok(view) => view,
        Err(fault) => return Err(WorkStop::Fault(fault)),
    };
    let none = KnownRange {
        from: 0,
        fit: Fit {
            count: 0,
            octets: 0,
        },
    };
    let mut known = [none; 64];
    match first_too_long(migrator, &view, &mut known) {
        Some(octets) => return Err(WorkStop::TooLong { octets }),
        None => {}
    }
    match report_losses(migrator, block, outputs, report) {
        Ok(()) => match write_blocks(migrator, &view, &known, out, &mut outputs.block) {
            Ok(()) => Ok(()),
            Err(_) => Err(WorkStop::WriteFault),
        },
        Err(_) => Err(WorkStop::ReportFault),
    }
}

/// Writes the lines that were laid for a block, as one piece; where they are more than were kept, from the records again.
fn report_losses<R: Sink>(
    migrator: &Migrator<'_>,
    block: NumberedBlock<'_, '_>,
    outputs: &Outputs,
    report: &mut R,
) -> Result<(), SinkFailed>
    requires spelled { SpellsSome migrator.now.codec.now block.raw.now.body.now }
    requires told { TellsLosses migrator.now block.raw.now.body.now block.number outputs.now.laid.lines outputs.now.lines.items }
    ensures { WritesLosses migrator.now block.entry.raw.now.body.now block.entry.number (sink_change R.Sink report.old report.new) result }
{
    let told = outputs.laid.lines;
    if told <= LONGEST {
        return write_text(report, &outputs.lines[..told as usize]);
    }
    report_again(migrator, block, report)
}

/// Writes the lines of a block from its records: they are more than were kept. It has a view on its stack, and so stands apart.
#[inline(never)]
fn report_again<R: Sink>(
    migrator: &Migrator<'_>,
    block: NumberedBlock<'_, '_>,
    report: &mut R,
) -> Result<(), SinkFailed>
    requires spelled { SpellsSome migrator.now.codec.now block.raw.now.body.now }
    ensures { WritesLosses migrator.now block.entry.raw.now.body.now block.entry.number (sink_change R.Sink report.old report.new) result }
{
    match scan(migrator.old(), block.raw.body) {
        Ok(view) => migrator.write_losses(report, block.number, &view),
        Err(_) => Err(SinkFailed),
    }
}
