//! The line reader.
ghost use Rattle.std.specs.Prelude.{◌≡◌, IfOk, length};

use crate::line_error::LineError;
use crate::next_line::{BufferWindow, BufferedLine, LineLimits, next_line};
use crate::reading::READ_AHEAD;
use ax_endpoints::Source;
use std::alloc::{AllocError, Global};
use std::marker::Model;

/// How a reader has ended, which it answers from then on.
#[derive(Clone, Copy)]
pub enum EndedLines {
    EndOfInput,
    Refused(LineError),
}

/// A reader of lines, with room for the longest one. The buffer has as many octets as were needed so far.
pub struct LineReader {
    buffer: Vec<u8>,
    start: usize,
    end: usize,
    line_limit: u32,
    limit: u64,
    given: u64,
    ended: Option<EndedLines>,
}

impl Drop for LineReader {
    fn drop(self) {
        let LineReader {
            buffer: _buffer,
            start: _start,
            end: _end,
            line_limit: _line_limit,
            limit: _limit,
            given: _given,
            ended: _ended,
        } = self;
    }
}

impl Model for LineReader {
    ghost use Rattle.std.specs.Prelude.{◌≡◌, ◌+◌, ◌≤◌, length, slice_range, vec_capacity};
    ghost use Rattle.ax_lines.specs.Reader.{ReaderState, read_ahead};

    ghost Value = { ReaderState };

    ghost view = { λ r. record {
      line_limit = r.line_limit;
      limit = r.limit;
      given = r.given;
      buffered = slice_range r.buffer.items r.start r.end;
      ended = r.ended;
    } };

    ghost invariant = { λ r. (length r.buffer.items ≤ r.line_limit + read_ahead) × (r.line_limit + read_ahead ≤ vec_capacity r.buffer) × (r.start ≤ r.end) × (r.end ≤ length r.buffer.items) × (r.given ≤ r.limit) };
}

impl LineReader {
    ghost use Rattle.std.specs.Prelude.{◌≡◌, ◌+◌, ◌^◌, ◌≤◌, ◌<◌, ◌⊎◌, [], Some, None, IfOk, IfSome, length};
    ghost use Rattle.std.specs.Borrow.{sem};
    ghost use Rattle.std.specs.Io.BufRead.{Rests};
    ghost use Rattle.ax_lines.specs.Feeds.{IsPlain};
    ghost use Rattle.ax_lines.specs.Reader.{IsAfter, IsOpen, line_read, ended_by, ended_after, OnEnd, OnTooLong, OnReadFault, UnlessReadFault, ReaderEnds, ReaderPasses, ReaderStops};
    ghost use Rattle.ax_lines.specs.contracts.reader.LineReader.{the_row};
    ghost use Rattle.ax_endpoints.specs.Changes.{source_change};
    ghost use Rattle.ax_endpoints.specs.Told.{Rose};

    /// A reader of an input of at most `limit` octets in lines of at most `line_limit` octets each, which has taken nothing
    /// and keeps no answer. The room for the longest line and 65,536 octets after it is taken here, once; want of memory
    /// for it is the one refusal. Of that room no more is touched than the lines of the input reach.
    pub fn new(alloc: Global, line_limit: u32, limit: u64) -> Result<LineReader, AllocError>
        requires { line_limit ≤ 2 ^ 30 }
        ensures { IfOk result (λ reader. reader ≡ record { line_limit = line_limit; limit = limit; given = 0; buffered = []; ended = None }) }
    {
        let buffer = Vec::with_capacity(alloc, line_limit as usize + READ_AHEAD)?;
        Ok(LineReader {
            buffer,
            start: 0,
            end: 0,
            line_limit,
            limit,
            given: 0,
            ended: None,
        })
    }

    /// How the reader has ended once it has given the line: a line without its line feed is the last one.
    fn ended_after(line: BufferedLine) -> Option<EndedLines>
        ensures { result ≡ ended_after line.stop line.next }
    {
        if line.next == line.stop {
            Some(EndedLines::EndOfInput)
        } else {
            None
        }
    }

    /// The next line of the input, without its line feed, which the last line needn't have; None exactly where no octet is
    /// left. It takes no memory, and asks the source only while the octets that it holds have no line feed; it may take
    /// octets of later lines, and holds them: with those of the line it holds at most the longest line and 65,536 octets.
    ///
    /// - `InputTooLong` exactly at octet number `limit` + 1 of the input; of a source that doesn't tell its octets, only
    ///   where the number of those taken passes the limit.
    /// - `LineTooLong` exactly at octet number `line_limit` + 1 of a line, where that isn't the other octet too.
    /// - `ReadFault` only where the source counted a fault in this call; every line was given then whose line feed was taken,
    ///   and no other. One fault at most is counted, and none at another answer: after a read that failed the source isn't
    ///   asked again.
    ///
    /// After None or a refusal it gives the same answer again, and takes nothing. After a line without a line feed, which is
    /// the last one, it gives None: the source has ended, and isn't asked again.
    pub fn next<'b, S: Source>(&'b mut self, source: &mut S) -> Result<Option<&'b [u8]>, LineError>
        ensures* after { sem 𝓛 (Rests the_row self.entry (λ new. IsAfter self.old (source_change S.Source source.old source.new) (line_read result) new)) }
        ensures again { IfSome self.old.ended (λ ended. (ended_by result ≡ Some ended) × (source.new ≡ source.old)) }
        ensures end { IsOpen self.old → OnEnd result (ReaderEnds self.old (source_change S.Source source.old source.new)) }
        ensures past_limit { IsOpen self.old → OnTooLong result (ReaderPasses self.old (source_change S.Source source.old source.new)) }
        ensures fault { IsOpen self.old → OnReadFault result (ReaderStops self.old (source_change S.Source source.old source.new)) }
        ensures asks { IsPlain self.old.buffered ⊎ (source.new ≡ source.old) }
        ensures rose { IsOpen self.old → OnReadFault result (Rose (S.faults source.old) (S.faults source.new)) }
        ensures never_falls { S.faults source.old ≤ S.faults source.new }
        ensures once { S.faults source.new ≤ S.faults source.old + 1 }
        ensures quiet { UnlessReadFault result (S.faults source.new ≡ S.faults source.old) }
    {
        match self.ended {
            Some(EndedLines::EndOfInput) => return Ok(None),
            Some(EndedLines::Refused(error)) => return Err(error),
            None => {}
        }
        match next_line(
            source,
            &mut self.buffer,
            BufferWindow {
                start: self.start,
                end: self.end,
            },
            LineLimits {
                line: self.line_limit,
                input: self.limit,
                given: self.given,
            },
        ) {
            Ok(Some(line)) => {
                self.start = line.next;
                self.end = line.end;
                self.given += (line.next - line.start) as u64;
                self.ended = LineReader::ended_after(line);
                Ok(Some(&self.buffer[line.start..line.stop]))
            }
            Ok(None) => {
                self.ended = Some(EndedLines::EndOfInput);
                Ok(None)
            }
            Err(error) => {
                self.ended = Some(EndedLines::Refused(error));
                Err(error)
            }
        }
    }
}
