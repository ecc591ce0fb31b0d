//! How a run over the lines of an input ends.
ghost use Rattle.std.specs.Prelude.{◌≡◌};
ghost use Rattle.ax_lines.specs.Ending.{error_end};

use crate::line_error::LineError;

/// How a run over the lines of an input ends. Lines are numbered from 0, empty ones among them.
#[derive(Clone, Copy, Debug, PartialEq, Eq)]
pub enum LinesEnd<F> {
    /// The input was read to its end, and so many lines had a result.
    Done { results: u64 },
    /// That line is refused.
    Refused { line: u64, fault: F },
    /// That line has more octets than the limit on a line.
    LineTooLong { line: u64 },
    /// The input has more octets than its limit.
    InputTooLong,
    /// The input could not be read.
    ReadFault,
    /// The output could not be written.
    WriteFault,
    /// Want of memory.
    OutOfMemory,
}

/// The end for a refusal of the reader, after this many lines.
pub fn line_reader_end<F>(error: LineError, lines: u64) -> LinesEnd<F>
    ensures { result ≡ error_end lines error }
{
    match error {
        LineError::ReadFault => LinesEnd::ReadFault,
        LineError::InputTooLong => LinesEnd::InputTooLong,
        LineError::LineTooLong => LinesEnd::LineTooLong { line: lines },
    }
}
