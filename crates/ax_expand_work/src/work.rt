//! The work of `expand` on one block.
ghost use Rattle.std.specs.Prelude.{◌≡◌, Some};
ghost use Rattle.ax_expand.specs.Expansion.{expansion_tree};
ghost use Rattle.ax_expand_work.specs.ExpandCommand.{expand_command};
ghost use Rattle.ax_format.specs.Plain.{spec_tree};
ghost use Rattle.ax_codec.specs.Standing.{IsCompiled};

use crate::contents::ContentLines;
use crate::records::{Expanded, gather_block};
use ax_blocks::{BlockWork, WorkStop, write_piece};
use ax_check::Accepted;
use ax_codec::Codec;
use ax_endpoints::{Sink, write_text};
use ax_expand::AcceptedExpansion;
use ax_format::RawBlock;
use ax_octets::OctetBuffer;
use ax_walk::scan;
use std::alloc::Global;

/// `expand` under a specification, by its codec: RE has that field reference number, and its contents are read by the expansion.
/// The memory of the lines is kept from block to block, and grows to what the longest block needs.
pub struct ExpandViews<'c> {
    alloc: Global,
    /// What the codec stands for: contracts speak of it, the code doesn't.
    accepted: &'c Accepted,
    codec: &'c Codec,
    expansion: &'c AcceptedExpansion,
    frn: u32,
    lines: ContentLines,
}

impl Drop for ExpandViews<'_> {
    fn drop(self) {
        let ExpandViews {
            alloc: _alloc,
            accepted: _accepted,
            codec: _codec,
            expansion: _expansion,
            frn: _frn,
            lines: _lines,
        } = self;
    }
}

impl<'c> ExpandViews<'c> {
    /// `expand` of RE, which has that field reference number. Takes no memory.
    pub fn new(
        alloc: Global,
        accepted: &'c Accepted,
        codec: &'c Codec,
        expansion: &'c AcceptedExpansion,
        frn: u32,
    ) -> ExpandViews<'c>
        requires { IsCompiled codec.now (spec_tree accepted.now) }
        ensures command { ⟦<ExpandViews<'c> as BlockWork>⟧.command result ≡ expand_command (spec_tree accepted.now) frn (expansion_tree expansion.now) }
        ensures sound { ⟦<ExpandViews<'c> as BlockWork>⟧.sound result }
    {
        ExpandViews {
            alloc,
            accepted,
            codec,
            expansion,
            frn,
            lines: ContentLines {
                spelled: OctetBuffer::new(alloc),
                faulty: OctetBuffer::new(alloc),
            },
        }
    }
}

impl<'c> BlockWork for ExpandViews<'c> {
    ghost use Rattle.std.specs.Prelude.{true};

    ghost command = { λ s. expand_command (spec_tree s.accepted.now) s.frn (expansion_tree s.expansion.now) };

    ghost sound = { λ s. IsCompiled s.codec.now (spec_tree s.accepted.now) };

    ghost remembers = { λ first s raws. Unit {0} };

    ghost takes_memory = { true };

    #[tactic(auto, using(crate::proofs::Blocks::takes))]
    fn take<R: Sink, K: Sink>(
        &mut self,
        number: u64,
        raw: &RawBlock<'_>,
        report: &mut R,
        out: &mut K,
    ) -> Result<(), WorkStop> {
        if raw.category != self.codec.category() {
            return Ok(());
        }
        let view = match scan(self.codec, raw.body) {
            Ok(view) => view,
            Err(fault) => return Err(WorkStop::Fault(fault)),
        };
        self.lines.spelled.clear();
        self.lines.faulty.clear();
        let re = Expanded {
            expansion: self.expansion,
            frn: self.frn,
        };
        match gather_block(self.alloc, re, number, &view, &mut self.lines) {
            Ok(()) => {}
            Err(_) => return Err(WorkStop::OutOfMemory),
        }
        match write_text(report, self.lines.faulty.as_slice()) {
            Ok(()) => write_piece(out, self.lines.spelled.as_slice()),
            Err(_) => Err(WorkStop::ReportFault),
        }
    }
}
