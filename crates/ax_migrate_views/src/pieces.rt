//! Views whose migrated records come into several data blocks.
ghost use Rattle.std.specs.Prelude.{◌≡◌, ◌+◌, ◌%◌, ◌≤◌, get_or, length, set, None};
ghost use Rattle.ax_migrate_views.specs.Pieces.{AreKnown, FindsTooLong, IsRange, WritesBlocks, WritesRange};
ghost use Rattle.ax_migrate_views.specs.Ranges.{FitsFrom, HasRecords};
ghost use Rattle.ax_endpoints.specs.Changes.{sink_change};

use crate::migrator::Migrator;
use crate::ranges::Fit;
use ax_endpoints::{Sink, SinkFailed, write_text};
use ax_walk::BlockView;

/// What is kept of a range of migrated records: as many as come into one block, from that of the number `from` on. With none it
/// says nothing.
#[derive(Clone, Copy)]
pub(crate) struct KnownRange {
    pub(crate) from: u32,
    pub(crate) fit: Fit,
}

/// How many ranges are kept.
const KEPT: usize = 64;

/// Keeps a range, in the place that its first record's number has.
fn keep(known: &mut [KnownRange], from: u32, fit: Fit)
    requires room { length known.old ≡ 64 }
    ensures { known.new ≡ set known.old (from % 64) (record { from = from; fit = fit }) }
{
    known[from as usize % KEPT] = KnownRange { from, fit };
}

/// What is kept in the place of a record's number.
fn kept_at(known: &[KnownRange], from: u32) -> KnownRange
    requires room { length known.now ≡ 64 }
    ensures { result ≡ get_or known.now (from % 64) result }
{
    known[from as usize % KEPT]
}

/// As many migrated records of a view, from one of them on, as come into one block: as they were kept, or found anew.
fn fit_at(migrator: &Migrator<'_>, view: &BlockView<'_, '_>, known: &[KnownRange], from: u32) -> Fit
    requires view { view.now.codec.now ≡ migrator.now.codec.now }
    requires from { HasRecords migrator.now view.now.body.now (from + 1) }
    requires room { length known.now ≡ 64 }
    requires known { AreKnown migrator.now view.now.body.now known.now }
    ensures { FitsFrom migrator.now view.now.body.now from result }
{
    let kept = kept_at(known, from);
    if kept.from == from && kept.fit.count > 0 {
        return kept.fit;
    }
    migrator.fit(view, from)
}

/// The octets of the first migrated record of a view that has too many for a data block of its own, if one has. Ranges that
/// come into one block are kept.
pub(crate) fn first_too_long(
    migrator: &Migrator<'_>,
    view: &BlockView<'_, '_>,
    known: &mut [KnownRange],
) -> Option<u32>
    requires view { view.now.codec.now ≡ migrator.now.codec.now }
    requires room { length known.old ≡ 64 }
    requires known { AreKnown migrator.now view.now.body.now known.old }
    ensures found { FindsTooLong migrator.now view.now.body.now result }
    ensures room { length known.new ≡ 64 }
    ensures known { AreKnown migrator.now view.now.body.now known.new }
{
    let count = view.count();
    let mut from = 0;
    while from < count {
        let fit = migrator.fit(view, from);
        if fit.count == 0 {
            return Some(fit.octets);
        }
        keep(known, from, fit);
        from += fit.count;
    }
    None
}

/// Writes the block of some migrated records of a view, which come into one, as one piece.
fn write_range<K: Sink>(
    migrator: &Migrator<'_>,
    view: &BlockView<'_, '_>,
    range: KnownRange,
    out: &mut K,
    output: &mut [u8],
) -> Result<(), SinkFailed>
    requires view { view.now.codec.now ≡ migrator.now.codec.now }
    requires range { IsRange migrator.now view.now.body.now range.from range.fit.count }
    requires room { length output.old ≡ 131067 }
    ensures written { WritesRange migrator.now view.now.body.now range.from range.fit.count (sink_change K.Sink out.old out.new) result }
    ensures room { length output.new ≡ 131067 }
{
    let octets = migrator.lay_range(view, range.from, range.fit.count, output);
    write_text(out, &output[..octets as usize])
}

/// Writes the blocks that the migrated records of a view are split into, each as one piece. None of the records alone is too
/// long for a block. Ranges that are kept aren't found anew. At `SinkFailed` the blocks before are written, and a prefix of the one that failed.
pub(crate) fn write_blocks<K: Sink>(
    migrator: &Migrator<'_>,
    view: &BlockView<'_, '_>,
    known: &[KnownRange],
    out: &mut K,
    output: &mut [u8],
) -> Result<(), SinkFailed>
    requires view { view.now.codec.now ≡ migrator.now.codec.now }
    requires known_room { length known.now ≡ 64 }
    requires known { AreKnown migrator.now view.now.body.now known.now }
    requires none { FindsTooLong migrator.now view.now.body.now None }
    requires room { length output.old ≡ 131067 }
    ensures written { WritesBlocks migrator.now view.now.body.now (sink_change K.Sink out.old out.new) result }
    ensures room { length output.new ≡ 131067 }
{
    let count = view.count();
    let mut from = 0;
    while from < count {
        let fit = fit_at(migrator, view, known, from);
        write_range(migrator, view, KnownRange { from, fit }, out, output)?;
        from += fit.count;
    }
    Ok(())
}
