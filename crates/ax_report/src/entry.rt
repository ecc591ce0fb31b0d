//! The line of an entry of a block.
ghost use Rattle.std.specs.Prelude.{◌≡◌, ◌++◌, codes};
ghost use Rattle.ax_endpoints.specs.Changes.{Wrote, sink_change};
ghost use Rattle.ax_report.specs.Lines.{numbered, entry_line, entry_place};

use crate::pieces::{write_numbered, write_three};
use ax_endpoints::{Sink, SinkFailed, write_text};

/// Writes a space, the path of an entry and the end of its line.
fn write_path<K: Sink>(sink: &mut K, path: &[u8]) -> Result<(), SinkFailed>
    ensures { Wrote (sink_change K.Sink sink.old sink.new) result (codes " " ++ (path.now ++ codes "\n")) }
{
    write_three(sink, b" ", path, b"\n")
}

/// Writes the number of a record and the path of its entry, up to the end of the line.
#[tactic(auto, using(ax_endpoints::proofs::Pieces::pieces))]
fn write_in_block<K: Sink>(sink: &mut K, record_at: u32, path: &[u8]) -> Result<(), SinkFailed>
    ensures { Wrote (sink_change K.Sink sink.old sink.new) result (numbered (codes " record ") record_at ++ (codes " " ++ (path.now ++ codes "\n"))) }
{
    write_numbered(sink, b" record ", record_at as u64)?;
    write_path(sink, path)
}

/// Writes the number of a block and of its record and the path of an entry, up to the end of the line.
#[tactic(auto, using(ax_endpoints::proofs::Pieces::pieces))]
fn write_place<K: Sink>(
    sink: &mut K,
    block: u64,
    record_at: u32,
    path: &[u8],
) -> Result<(), SinkFailed>
    ensures { Wrote (sink_change K.Sink sink.old sink.new) result (entry_place block record_at path.now) }
{
    write_numbered(sink, b" block ", block)?;
    write_in_block(sink, record_at, path)
}

/// Writes the line `WORD block N record M PATH` of an entry, up to its line feed: what is said of the entry in one word, the
/// number of its block, the number of its record in the block, both from 0, and its path.
#[tactic(auto, using(ax_endpoints::proofs::Pieces::pieces))]
pub fn write_entry<K: Sink>(
    sink: &mut K,
    word: &[u8],
    block: u64,
    record_at: u32,
    path: &[u8],
) -> Result<(), SinkFailed>
    ensures { Wrote (sink_change K.Sink sink.old sink.new) result (entry_line word.now block record_at path.now) }
{
    write_text(sink, word)?;
    write_place(sink, block, record_at, path)
}
