//! A line command over a stream.
ghost use Rattle.std.specs.Prelude.{◌≡◌};
ghost use Rattle.ax_lines.specs.Completing.{CompletesWhole};
ghost use Rattle.ax_lines.specs.Runs.{LinesRunWhole};
ghost use Rattle.ax_endpoints.specs.Changes.{source_change, sink_change};

use crate::driving::drive_lines;
use crate::end::LinesEnd;
use crate::reader::LineReader;
use crate::work::LineWork;
use ax_endpoints::{LONGEST_INPUT, Sink, Source};
use std::alloc::Global;

/// The most octets of a line, its line feed aside.
const LONGEST_LINE: u32 = 1 << 24;

/// Does the work on each line of the input. The reader's memory is taken first.
pub fn run_lines<W: LineWork, S: Source, K: Sink>(
    alloc: Global,
    work: &mut W,
    source: &mut S,
    out: &mut K,
) -> LinesEnd<W::Fault>
    requires { W.sound work.old }
    ensures completes { CompletesWhole (W.command work.old) (source_change S.Source source.old source.new) (sink_change K.Sink out.old out.new) result }
    ensures runs { LinesRunWhole (W.command work.old) (source_change S.Source source.old source.new) (sink_change K.Sink out.old out.new) result }
{
    let Ok(mut reader) = LineReader::new(alloc, LONGEST_LINE, LONGEST_INPUT) else {
        return LinesEnd::OutOfMemory;
    };
    drive_lines(&mut reader, work, source, out)
}
