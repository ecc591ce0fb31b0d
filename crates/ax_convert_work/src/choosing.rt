//! The work of `convert` on one block: a tree is made of it only where something in it may be converted.
ghost use Rattle.std.specs.Prelude.{◌≡◌, false, IfOk};
ghost use Rattle.ax_blocks.specs.Reader.{raw_tree};
ghost use Rattle.ax_convert_work.specs.ConvertCommand.{convert_command};
ghost use Rattle.ax_convert_work.specs.OfCode.{command_between};
ghost use Rattle.ax_convert_work.specs.Standing.{TellsMayConvert};
ghost use Rattle.ax_migrate_views.specs.Blocks.{new_tree, old_tree};
ghost use Rattle.ax_format.specs.Plain.{spec_tree};
ghost use Rattle.ax_relation.specs.Relates.{Relates};
ghost use Rattle.ax_rescale.specs.Converts.{converting_slots};

use crate::standing::some_stands;
use crate::work::ConvertTrees;
use ax_blocks::{BlockWork, WorkStop};
use ax_check::Accepted;
use ax_endpoints::Sink;
use ax_format::RawBlock;
use ax_migrate_views::{MigrateViews, Migrator};
use ax_relation::Relation;
use ax_walk::scan;
use std::alloc::{AllocError, Global};

/// `convert` from one edition to another. A block in which nothing may be converted is migrated, as its view; of any other a tree
/// is made. From which slots something is converted is found once: from none, where the editions differ in no quantity.
pub struct ConvertBlocks<'m, 'c> {
    migrator: &'m Migrator<'c>,
    /// The slots of the old edition from which something is converted.
    slots: Vec<u32>,
    views: MigrateViews<'m, 'c>,
    trees: ConvertTrees<'c>,
}

impl Drop for ConvertBlocks<'_, '_> {
    fn drop(self) {
        let ConvertBlocks {
            migrator: _migrator,
            slots: _slots,
            views: _views,
            trees: _trees,
        } = self;
    }
}

impl<'m, 'c> ConvertBlocks<'m, 'c> {
    /// `convert` from the old edition to the new one, of which the relation and the migrator are. Err is want of memory.
    pub fn new(
        alloc: Global,
        relation: &'c Relation,
        old: &'c Accepted,
        new: &'c Accepted,
        migrator: &'m Migrator<'c>,
    ) -> Result<ConvertBlocks<'m, 'c>, AllocError>
        requires related { Relates old.now new.now relation.now }
        requires old { old_tree migrator.now ≡ spec_tree old.now }
        requires new { new_tree migrator.now ≡ spec_tree new.now }
        ensures command { IfOk result (λ work. ⟦<ConvertBlocks<'m, 'c> as BlockWork>⟧.command work ≡ command_between migrator.now) }
        ensures sound { IfOk result (λ work. ⟦<ConvertBlocks<'m, 'c> as BlockWork>⟧.sound work) }
    {
        let slots = ax_rescale::converting_slots(alloc, old.spec(), new.spec())?;
        let views = MigrateViews::new(alloc, migrator)?;
        let trees = ConvertTrees::new(alloc, relation, old, new)?;
        Ok(ConvertBlocks {
            migrator,
            slots,
            views,
            trees,
        })
    }

    /// Whether something in the block may be converted. Nothing is said of a block whose body has a fault.
    #[tactic(auto, using(crate::proofs::ToldBlocks::tells))]
    fn may_convert(&self, raw: &RawBlock<'_>) -> bool
        requires slots { self.now.slots.items ≡ converting_slots (old_tree self.now.migrator.now) (new_tree self.now.migrator.now) }
        ensures { TellsMayConvert (old_tree self.now.migrator.now) (new_tree self.now.migrator.now) (raw_tree raw.now) result }
    {
        let slots = self.slots.as_slice();
        if slots.is_empty() {
            return false;
        }
        if raw.category != self.migrator.old().category() {
            return false;
        }
        match scan(self.migrator.old(), raw.body) {
            Ok(view) => some_stands(slots, &view),
            Err(_) => true,
        }
    }
}

impl<'m, 'c> BlockWork for ConvertBlocks<'m, 'c> {
    ghost use Rattle.std.specs.Prelude.{true};
    ghost use Rattle.ax_migration.specs.Commands.{migrate_command};

    ghost command = { λ s. convert_command (old_tree s.migrator.now) (new_tree s.migrator.now) };

    ghost sound = { λ s. (s.slots.items ≡ converting_slots (old_tree s.migrator.now) (new_tree s.migrator.now))
        × ⟦<MigrateViews<'m, 'c> as BlockWork>⟧.sound s.views × (⟦<MigrateViews<'m, 'c> as BlockWork>⟧.command s.views ≡ migrate_command (old_tree s.migrator.now) (new_tree s.migrator.now))
        × ⟦<ConvertTrees<'c> as BlockWork>⟧.sound s.trees × (⟦<ConvertTrees<'c> as BlockWork>⟧.command s.trees ≡ convert_command (old_tree s.migrator.now) (new_tree s.migrator.now)) };

    ghost remembers = { λ first s raws. Unit {0} };

    ghost takes_memory = { true };

    #[tactic(auto, using(crate::proofs::Migrating::takes))]
    fn take<R: Sink, K: Sink>(
        &mut self,
        number: u64,
        raw: &RawBlock<'_>,
        report: &mut R,
        out: &mut K,
    ) -> Result<(), WorkStop> {
        if self.may_convert(raw) {
            return self.trees.take(number, raw, report, out);
        }
        self.views.take(number, raw, report, out)
    }
}
