//! `show` over the blocks of an input.
ghost use Rattle.std.specs.Prelude.{◌≡◌, IfOk};
ghost use Rattle.ax_format.specs.Plain.{catalogue_tree};
ghost use Rattle.ax_codec.specs.Standing.{StandForEach};
ghost use Rattle.ax_listing.specs.ShowCommand.{show_command};

use crate::block::list_block;
use crate::room::ListingRoom;
use crate::tables::{ListedUaps, tables_of};
use ax_blocks::{BlockStop, BlockWork, NumberedBlock, WorkStop, write_piece};
use ax_canon::blank_output;
use ax_check::Catalogue;
use ax_endpoints::Sink;
use ax_format::RawBlock;
use ax_tables::Codecs;
use ax_text_form::Lister;
use std::alloc::{AllocError, Global};

/// `show` under a catalogue, by the codecs of its specifications: the listing of each block, by its number in the input. The
/// listing's memory is kept from block to block.
pub struct ShowViews<'c> {
    /// What the tables and the codecs are of: contracts speak of it, the code doesn't.
    catalogue: &'c Catalogue,
    codecs: &'c Codecs,
    tables: ListedUaps<'c>,
    room: ListingRoom,
}

impl Drop for ShowViews<'_> {
    fn drop(self) {
        let ShowViews {
            catalogue: _catalogue,
            codecs: _codecs,
            tables: _tables,
            room: _room,
        } = self;
    }
}

impl<'c> ShowViews<'c> {
    /// `show` under that catalogue, by its codecs. What it needs of each category besides is found here. Err is want of memory.
    pub fn new(
        alloc: Global,
        catalogue: &'c Catalogue,
        codecs: &'c Codecs,
    ) -> Result<ShowViews<'c>, AllocError>
        requires { StandForEach codecs.now.codecs (catalogue_tree catalogue.now) }
        ensures command { IfOk result (λ work. ⟦<ShowViews<'c> as BlockWork>⟧.command work ≡ show_command (catalogue_tree catalogue.now)) }
        ensures sound { IfOk result (λ work. ⟦<ShowViews<'c> as BlockWork>⟧.sound work) }
    {
        let tables = tables_of(alloc, catalogue)?;
        let output = blank_output(alloc)?;
        Ok(ShowViews {
            catalogue,
            codecs,
            tables,
            room: ListingRoom {
                lister: Lister::new(alloc),
                output,
            },
        })
    }
}

impl<'c> BlockWork for ShowViews<'c> {
    ghost use Rattle.std.specs.Prelude.{◌≡◌, true};

    ghost command = { λ s. show_command (catalogue_tree s.catalogue.now) };

    ghost sound = { λ s. StandForEach s.codecs.now.codecs (catalogue_tree s.catalogue.now) × (s.tables ≡ s.catalogue.now) };

    ghost remembers = { λ first s raws. Unit {0} };

    ghost takes_memory = { true };

    #[tactic(auto, using(ax_blocks::proofs::MadeBlocks::tree_takes, crate::proofs::Blocks::takes))]
    fn take<R: Sink, K: Sink>(
        &mut self,
        number: u64,
        raw: &RawBlock<'_>,
        _report: &mut R,
        out: &mut K,
    ) -> Result<(), WorkStop> {
        match list_block(
            &mut self.room,
            self.codecs,
            &self.tables,
            self.catalogue,
            NumberedBlock { number, raw },
        ) {
            Ok(()) => write_piece(out, self.room.lister.listing()),
            Err(BlockStop::Fault(fault)) => Err(WorkStop::Fault(fault)),
            Err(BlockStop::OutOfMemory) => Err(WorkStop::OutOfMemory),
        }
    }
}
