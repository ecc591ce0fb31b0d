//! `text` as a block command.
ghost use Rattle.std.specs.Prelude.{◌≡◌, IfOk};
ghost use Rattle.ax_format.specs.Plain.{catalogue_tree};
ghost use Rattle.ax_text_lines.specs.TextCommand.{text_command};

use crate::blocks::{print_block, print_opaque};
use crate::line::TokenLine;
use crate::tables::{PrintedUaps, tables_of};
use ax_blocks::{BlockWork, WorkStop, write_piece};
use ax_check::Catalogue;
use ax_endpoints::Sink;
use ax_format::RawBlock;
use ax_values::DecodeError;
use std::alloc::{AllocError, Global};

/// `text` under a catalogue: the line of each block, printed in one walk over its octets. The line's memory is kept from
/// block to block, and grows to what the longest line needs.
pub struct TextViews<'c> {
    /// What the tables are of: contracts speak of it, the code doesn't.
    catalogue: &'c Catalogue,
    tables: PrintedUaps<'c>,
    line: TokenLine,
}

impl Drop for TextViews<'_> {
    fn drop(self) {
        let TextViews {
            catalogue: _catalogue,
            tables: _tables,
            line: _line,
        } = self;
    }
}

impl<'c> TextViews<'c> {
    /// `text` under that catalogue. What it needs of each category is found here.
    pub fn new(alloc: Global, catalogue: &'c Catalogue) -> Result<TextViews<'c>, AllocError>
        ensures command { IfOk result (λ work. ⟦<TextViews<'c> as BlockWork>⟧.command work ≡ text_command (catalogue_tree catalogue.now)) }
        ensures sound { IfOk result (λ work. ⟦<TextViews<'c> as BlockWork>⟧.sound work) }
    {
        let tables = tables_of(alloc, catalogue)?;
        Ok(TextViews {
            catalogue,
            tables,
            line: TokenLine::new(alloc),
        })
    }
}

impl<'c> BlockWork for TextViews<'c> {
    ghost use Rattle.std.specs.Prelude.{◌≡◌, true};

    ghost command = { λ s. text_command (catalogue_tree s.catalogue.now) };

    ghost sound = { λ s. s.tables ≡ s.catalogue.now };

    ghost remembers = { λ first s raws. Unit {0} };

    ghost takes_memory = { true };

    #[tactic(auto, using(crate::proofs::TextBlocks::text_takes))]
    fn take<R: Sink, K: Sink>(
        &mut self,
        _number: u64,
        raw: &RawBlock<'_>,
        _report: &mut R,
        out: &mut K,
    ) -> Result<(), WorkStop> {
        match self.tables.get(raw.category) {
            Some(table) => match print_block(&mut self.line, &table.items, &table.mask, raw) {
                Ok(()) => write_piece(out, self.line.octets()),
                Err(DecodeError::Fault(fault)) => Err(WorkStop::Fault(fault)),
                Err(DecodeError::OutOfMemory) => Err(WorkStop::OutOfMemory),
            },
            None => match print_opaque(&mut self.line, raw) {
                Ok(()) => write_piece(out, self.line.octets()),
                Err(_) => Err(WorkStop::OutOfMemory),
            },
        }
    }
}
