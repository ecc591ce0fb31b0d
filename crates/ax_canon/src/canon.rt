//! `canon` over views.
ghost use Rattle.std.specs.Prelude.{◌≡◌, length, IfOk};
ghost use Rattle.ax_format.specs.Plain.{catalogue_tree};
ghost use Rattle.ax_format.specs.Sizes.{longest_block};
ghost use Rattle.ax_blocks.specs.BlockCommands.{canon_command};
ghost use Rattle.ax_canon.specs.CategoryRows.{AreCategoryRows};
ghost use Rattle.ax_codec.specs.Standing.{StandForEach};

use crate::category_rows::CategoryRows;
use crate::output::{blank_output, lay_canonical, lay_opaque};
use ax_blocks::{BlockWork, WorkStop, write_piece};
use ax_check::Catalogue;
use ax_endpoints::Sink;
use ax_format::RawBlock;
use ax_tables::Codecs;
use std::alloc::{AllocError, Global};

/// `canon` under a catalogue, by the codecs of its specifications. A block is judged and written by walking its octets;
/// what is written stands in one output, as long as the longest block.
pub struct CanonViews<'c> {
    /// What the codecs stand for: contracts speak of it, the code doesn't.
    catalogue: &'c Catalogue,
    rows: CategoryRows<'c>,
    output: Vec<u8>,
    ghost room: { length output.items ≡ longest_block },
}

impl Drop for CanonViews<'_> {
    fn drop(self) {
        let CanonViews {
            catalogue: _catalogue,
            rows: _rows,
            output: _output,
        } = self;
    }
}

impl<'c> CanonViews<'c> {
    /// `canon` under that catalogue, by its codecs. What it takes of memory is taken here.
    pub fn new(
        alloc: Global,
        catalogue: &'c Catalogue,
        codecs: &'c Codecs,
    ) -> Result<CanonViews<'c>, AllocError>
        requires { StandForEach codecs.now.codecs (catalogue_tree catalogue.now) }
        ensures command { IfOk result (λ work. ⟦<CanonViews<'c> as BlockWork>⟧.command work ≡ canon_command (catalogue_tree catalogue.now)) }
        ensures sound { IfOk result (λ work. ⟦<CanonViews<'c> as BlockWork>⟧.sound work) }
    {
        let rows = CategoryRows::of(alloc, codecs)?;
        let output = blank_output(alloc)?;
        Ok(CanonViews {
            catalogue,
            rows,
            output,
        })
    }
}

impl<'c> BlockWork for CanonViews<'c> {
    ghost use Rattle.std.specs.Prelude.{false};

    ghost command = { λ s. canon_command (catalogue_tree s.catalogue.now) };

    ghost sound = { λ s. StandForEach s.rows.codecs.now.codecs (catalogue_tree s.catalogue.now) × AreCategoryRows s.rows };

    ghost remembers = { λ first s raws. Unit {0} };

    ghost takes_memory = { false };

    #[tactic(auto, using(crate::proofs::CanonBlocks::canon_takes))]
    fn take<R: Sink, K: Sink>(
        &mut self,
        _number: u64,
        raw: &RawBlock<'_>,
        _report: &mut R,
        out: &mut K,
    ) -> Result<(), WorkStop> {
        match self.rows.get(raw.category) {
            Some(records) => match lay_canonical(records, raw.body, &mut self.output) {
                Ok(count) => write_piece(out, &self.output[..count as usize]),
                Err(fault) => Err(WorkStop::Fault(fault)),
            },
            None => {
                let count = lay_opaque(raw, &mut self.output);
                write_piece(out, &self.output[..count as usize])
            }
        }
    }
}
