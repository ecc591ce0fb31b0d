//! The work of `migrate` on one block.
ghost use Rattle.std.specs.Prelude.{◌≡◌, IfOk};
ghost use Rattle.ax_migrate_views.specs.Blocks.{command_of};

use crate::block::{copy_block, migrate_block};
use crate::migrator::Migrator;
use crate::output::Outputs;
use ax_blocks::{BlockWork, NumberedBlock, WorkStop};
use ax_endpoints::Sink;
use ax_format::RawBlock;
use std::alloc::{AllocError, Global};

/// `migrate` over views, by a migrator between the two editions. What is written of a block stands in one output, and the
/// lines of what it loses in another.
pub struct MigrateViews<'m, 'c> {
    migrator: &'m Migrator<'c>,
    outputs: Outputs,
}

impl Drop for MigrateViews<'_, '_> {
    fn drop(self) {
        let MigrateViews {
            migrator: _migrator,
            outputs: _outputs,
        } = self;
    }
}

impl<'m, 'c> MigrateViews<'m, 'c> {
    /// `migrate` by that migrator. Both outputs are taken here, and no memory after that.
    pub fn new(
        alloc: Global,
        migrator: &'m Migrator<'c>,
    ) -> Result<MigrateViews<'m, 'c>, AllocError>
        ensures command { IfOk result (λ work. ⟦<MigrateViews<'m, 'c> as BlockWork>⟧.command work ≡ command_of migrator.now) }
        ensures sound { IfOk result (λ work. ⟦<MigrateViews<'m, 'c> as BlockWork>⟧.sound work) }
    {
        let outputs = Outputs::new(alloc)?;
        Ok(MigrateViews { migrator, outputs })
    }
}

impl<'m, 'c> BlockWork for MigrateViews<'m, 'c> {
    ghost use Rattle.std.specs.Prelude.{false};

    ghost command = { λ s. command_of s.migrator.now };

    ghost sound = { λ s. Unit {0} };

    ghost remembers = { λ first s raws. Unit {0} };

    ghost takes_memory = { false };

    fn take<R: Sink, K: Sink>(
        &mut self,
        number: u64,
        raw: &RawBlock<'_>,
        report: &mut R,
        out: &mut K,
    ) -> Result<(), WorkStop> {
        if raw.category != self.migrator.old().category() {
            return copy_block(raw, out, &mut self.outputs);
        }
        let block = NumberedBlock { number, raw };
        migrate_block(self.migrator, block, report, out, &mut self.outputs)
    }
}
