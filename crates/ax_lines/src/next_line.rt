//! The next line, buffered in a buffer.
ghost use Rattle.std.specs.Prelude.{◌≡◌, ◌+◌, ◌≤◌, ◌⊎◌, length, vec_capacity};
ghost use Rattle.ax_lines.specs.Feeds.{IsPlain};
ghost use Rattle.ax_lines.specs.Reader.{read_ahead, OnLine, OnEnd, OnReadFault, UnlessReadFault, OnTooLong};
ghost use Rattle.ax_lines.specs.Window.{held, StandsNext, FindsLineEnd, PassesInput, StopsWithin};
ghost use Rattle.ax_endpoints.specs.Changes.{source_change};
ghost use Rattle.ax_endpoints.specs.Told.{Rose};

use crate::judging::judge;
use crate::line_error::LineError;
use crate::reading::hold_line;
use ax_endpoints::Source;

/// A line in a buffer, the octets `start..stop`; those after it and its line feed are `next..end`.
#[derive(Clone, Copy)]
pub struct BufferedLine {
    pub start: usize,
    pub stop: usize,
    pub next: usize,
    pub end: usize,
}

/// The octets `start..end` of a buffer, which are taken and stand in no line that was given.
#[derive(Clone, Copy)]
pub struct BufferWindow {
    pub start: usize,
    pub end: usize,
}

/// The limits on a line and on the whole input, in octets, and how many octets of it were given, line feeds included.
#[derive(Clone, Copy)]
pub struct LineLimits {
    pub line: u32,
    pub input: u64,
    pub given: u64,
}

/// The next line of an input, of which the octets of the window are taken already; None where none is left. The refusals
/// are those of the reader.
#[tactic(auto, using(crate::proofs::NextLines::next_lines))]
pub fn next_line<S: Source>(
    source: &mut S,
    buffer: &mut Vec<u8>,
    window: BufferWindow,
    limits: LineLimits,
) -> Result<Option<BufferedLine>, LineError>
    requires window { window.start ≤ window.end }
    requires within { window.end ≤ length buffer.old.items }
    requires length { length buffer.old.items ≤ limits.line + read_ahead }
    requires room { limits.line + read_ahead ≤ vec_capacity buffer.old }
    requires in_limit { limits.given ≤ limits.input }
    ensures line { OnLine result (StandsNext limits (held window buffer.old.items) (source_change S.Source source.old source.new) buffer.new.items) }
    ensures length { length buffer.new.items ≤ limits.line + read_ahead }
    ensures longer { length buffer.old.items ≤ length buffer.new.items }
    ensures room { limits.line + read_ahead ≤ vec_capacity buffer.new }
    ensures end { OnEnd result (FindsLineEnd limits (held window buffer.old.items) (source_change S.Source source.old source.new)) }
    ensures past_limit { OnTooLong result (PassesInput limits (held window buffer.old.items) (source_change S.Source source.old source.new)) }
    ensures fault { OnReadFault result (StopsWithin limits (held window buffer.old.items) (source_change S.Source source.old source.new)) }
    ensures asks { IsPlain (held window buffer.old.items) ⊎ (source.new ≡ source.old) }
    ensures rose { OnReadFault result (Rose (S.faults source.old) (S.faults source.new)) }
    ensures never_falls { S.faults source.old ≤ S.faults source.new }
    ensures once { S.faults source.new ≤ S.faults source.old + 1 }
    ensures quiet { UnlessReadFault result (S.faults source.new ≡ S.faults source.old) }
{
    let room = limits.input - limits.given;
    let most = room.min(limits.line as u64) as usize + 1;
    let Ok(buffered) = hold_line(source, buffer, window.start, window.end, most) else {
        return Err(LineError::ReadFault);
    };
    match judge(
        buffered.feed,
        buffered.end - buffered.start,
        limits.line as u64,
        room,
    ) {
        Ok(Some(cut)) => Ok(Some(BufferedLine {
            start: buffered.start,
            stop: buffered.start + cut.line,
            next: buffered.start + cut.whole,
            end: buffered.end,
        })),
        Ok(None) => Ok(None),
        Err(error) => Err(error),
    }
}
