//! The loop over the lines of an input, for every line command.
ghost use Rattle.std.specs.Prelude.{◌≡◌, ◌<◌, ◌≤◌, ◌^◌, [], None};
ghost use Rattle.ax_lines.specs.Ending.{longest_line};
ghost use Rattle.ax_lines.specs.Runs.{LinesRunBy};
ghost use Rattle.ax_lines.specs.Standing.{StandsWhereRefused};
ghost use Rattle.ax_endpoints.specs.Changes.{source_change, sink_change};

use crate::doing::do_line;
use crate::end::{LinesEnd, line_reader_end};
use crate::reader::LineReader;
use crate::work::LineWork;
use ax_endpoints::{Sink, Source};

/// Reads the input to its end, line by line: each is judged as a whole, then its octets are written as one piece. It takes
/// no memory but the work's. Nothing is read after a line that was refused.
pub fn drive_lines<W: LineWork, S: Source, K: Sink>(
    reader: &mut LineReader,
    work: &mut W,
    source: &mut S,
    out: &mut K,
) -> LinesEnd<W::Fault>
    requires fresh { reader.old ≡ record { line_limit = reader.old.line_limit; limit = reader.old.limit; given = 0; buffered = []; ended = None } }
    requires short { reader.old.line_limit ≤ longest_line }
    requires bounded { reader.old.limit < 2 ^ 63 }
    requires sound { W.sound work.old }
    ensures stands { StandsWhereRefused reader.old reader.new (source_change S.Source source.old source.new) result }
    ensures runs { LinesRunBy (W.command work.old) reader.old (source_change S.Source source.old source.new) (sink_change K.Sink out.old out.new) result }
{
    let mut lines = 0;
    let mut results = 0;
    'lines: loop {
        match reader.next(source) {
            Ok(Some(line)) => match do_line(work, out, lines, line) {
                Ok(count) => {
                    lines += 1;
                    results += count;
                }
                Err(end) => return end,
            },
            Ok(None) => return LinesEnd::Done { results },
            Err(error) => return line_reader_end(error, lines),
        }
    }
}
