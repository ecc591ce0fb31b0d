//! The command `build` over an input.
ghost use Rattle.std.specs.Prelude.{◌≡◌, ◌≤◌, ◌^◌, length};
ghost use Rattle.ax_build_work.specs.BuildCommand.{command_of};
ghost use Rattle.ax_lines.specs.Completing.{CompletesWhole};
ghost use Rattle.ax_lines.specs.Runs.{LinesRunWhole};
ghost use Rattle.ax_endpoints.specs.Changes.{sink_change, source_change};

use crate::building::line_octets;
use crate::fault::BuildStop;
use ax_block_reader::items_of;
use ax_check::Catalogue;
use ax_endpoints::{Sink, Source};
use ax_lines::{LineStop, LineWork, LinesEnd, TextFault, run_lines};
use ax_lists::zeros;
use ax_text_lines::{PrintedUaps, tables_of};
use ax_uap::CatalogueItems;
use std::alloc::Global;

/// The octets of the room in which a body is laid: 65,532 of the longest body, and what is left in it for presence fields that turn out
/// shorter, of a record and of compounds nested 20 deep.
const ROOM: usize = 66_560;

/// `build` under a catalogue.
struct BuildWork<'c> {
    alloc: Global,
    items: CatalogueItems<'c>,
    /// What lines are read by whose spacing is the usual one.
    tables: PrintedUaps<'c>,
    octets: Vec<u8>,
    /// Where the body of a block is laid while its line is read.
    room: Vec<u8>,
}

impl Drop for BuildWork<'_> {
    fn drop(self) {
        let BuildWork {
            alloc: _alloc,
            items: _items,
            tables: _tables,
            octets: _octets,
            room: _room,
        } = self;
    }
}

impl<'c> LineWork for BuildWork<'c> {
    type Fault = TextFault;

    ghost command = { λ s. command_of s.items };

    ghost sound = { λ s. (length s.room.items ≤ 2 ^ 20) × (s.tables ≡ s.items) };

    ghost laid = { λ s. s.octets.items };

    fn take(&mut self, _number: u64, line: &[u8]) -> Result<bool, LineStop<TextFault>> {
        match line_octets(self.alloc, &self.items, &self.tables, line, &mut self.room) {
            Ok(Some(octets)) => {
                self.octets = octets;
                Ok(true)
            }
            Ok(None) => Ok(false),
            Err(BuildStop::Refused(fault)) => Err(LineStop::Refused(fault)),
            Err(BuildStop::OutOfMemory) => Err(LineStop::OutOfMemory),
        }
    }

    fn octets(&self) -> &[u8] {
        &self.octets
    }
}

/// Looks the items of the catalogue's UAPs up, makes the templates of their texts, and takes the room in which bodies are laid, once.
/// Then it builds the block of each line of the input that has a token, and writes its canonical form as one piece, up to the first line
/// that is refused. Lines are numbered from 0, empty ones and comments among them.
pub fn build_lines<S: Source, K: Sink>(
    alloc: Global,
    catalogue: &Catalogue,
    source: &mut S,
    out: &mut K,
) -> LinesEnd<TextFault>
    ensures completes { CompletesWhole (command_of catalogue.now) (source_change S.Source source.old source.new) (sink_change K.Sink out.old out.new) result }
    ensures runs { LinesRunWhole (command_of catalogue.now) (source_change S.Source source.old source.new) (sink_change K.Sink out.old out.new) result }
{
    let Ok(items) = items_of(alloc, catalogue) else {
        return LinesEnd::OutOfMemory;
    };
    let Ok(tables) = tables_of(alloc, catalogue) else {
        return LinesEnd::OutOfMemory;
    };
    let Ok(room) = zeros(alloc, ROOM) else {
        return LinesEnd::OutOfMemory;
    };
    let mut work = BuildWork {
        alloc,
        items,
        tables,
        octets: Vec::new(alloc),
        room,
    };
    run_lines(alloc, &mut work, source, out)
}
