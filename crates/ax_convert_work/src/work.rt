//! The work of `convert` on one block.
ghost use Rattle.std.specs.Prelude.{◌≡◌, IfOk};
ghost use Rattle.ax_convert_work.specs.ConvertCommand.{convert_command};
ghost use Rattle.ax_format.specs.Plain.{spec_tree};
ghost use Rattle.ax_relation.specs.Relates.{Relates};

use crate::making::make;
use crate::writing::{write_blocks, write_misses};
use ax_blocks::{BlockWork, WorkStop};
use ax_check::Accepted;
use ax_endpoints::Sink;
use ax_format::RawBlock;
use ax_relation::Relation;
use ax_rescale::Converter;
use ax_uap::UapItems;
use std::alloc::{AllocError, Global};

/// `convert` from one edition to another, over trees. What is held of the two is found once.
pub struct ConvertTrees<'x> {
    alloc: Global,
    converter: Converter<'x>,
    /// The items of the new edition.
    items: UapItems<'x>,
}

impl Drop for ConvertTrees<'_> {
    fn drop(self) {
        let ConvertTrees {
            alloc: _alloc,
            converter: _converter,
            items: _items,
        } = self;
    }
}

impl<'x> ConvertTrees<'x> {
    /// `convert` from the old edition to the new one. The relation is of these two. Err is want of memory.
    pub fn new(
        alloc: Global,
        relation: &'x Relation,
        old: &'x Accepted,
        new: &'x Accepted,
    ) -> Result<ConvertTrees<'x>, AllocError>
        requires related { Relates old.now new.now relation.now }
        ensures command { IfOk result (λ work. ⟦<ConvertTrees<'x> as BlockWork>⟧.command work ≡ convert_command (spec_tree old.now) (spec_tree new.now)) }
        ensures sound { IfOk result (λ work. ⟦<ConvertTrees<'x> as BlockWork>⟧.sound work) }
    {
        let converter = Converter::new(alloc, relation, old.spec(), new.spec())?;
        let items = UapItems::of(alloc, new.spec())?;
        Ok(ConvertTrees {
            alloc,
            converter,
            items,
        })
    }
}

impl<'x> BlockWork for ConvertTrees<'x> {
    ghost use Rattle.std.specs.Prelude.{true};
    ghost use Rattle.ax_rescale.specs.Converting.{IsConverter};

    ghost command = { λ s. convert_command (spec_tree s.converter.old.now) (spec_tree s.converter.new.now) };

    ghost sound = { λ s. IsConverter s.converter × (s.items.spec.now ≡ s.converter.new.now) };

    ghost remembers = { λ first s raws. Unit {0} };

    ghost takes_memory = { true };

    // The memory of the block is taken, and its records judged, before its first line.
    #[tactic(auto, using(crate::proofs::Taking::takes))]
    fn take<R: Sink, K: Sink>(
        &mut self,
        number: u64,
        raw: &RawBlock<'_>,
        report: &mut R,
        out: &mut K,
    ) -> Result<(), WorkStop> {
        let made = match make(self.alloc, &self.converter, &self.items, raw) {
            Ok(made) => made,
            Err(stop) => return Err(stop),
        };
        match write_misses(report, number, &made.misses) {
            Ok(()) => match write_blocks(out, &made.blocks) {
                Ok(()) => Ok(()),
                Err(_) => Err(WorkStop::WriteFault),
            },
            Err(_) => Err(WorkStop::ReportFault),
        }
    }
}
