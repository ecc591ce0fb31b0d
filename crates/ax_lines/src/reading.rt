//! Octets taken until a line ends.
ghost use Rattle.std.specs.Prelude.{◌≡◌, ◌+◌, ◌≤◌, ◌<◌, ◌⊎◌, length, take, replicate, max, slice_range, vec_capacity, IfOk, OnErr};
ghost use Rattle.ax_lines.specs.Feeds.{IsPlain};
ghost use Rattle.ax_lines.specs.Holding.{HoldsLine, HoldsPart};
ghost use Rattle.ax_lines.specs.Reader.{read_ahead};
ghost use Rattle.ax_endpoints.specs.Changes.{source_change};
ghost use Rattle.ax_endpoints.specs.Told.{Rose};

use crate::feeds::first_feed;
use ax_endpoints::{Source, SourceFailed};

/// The octets `start..end` of a buffer, and the place of the first line feed among them, from the first of them.
#[derive(Clone, Copy)]
pub struct Buffered {
    pub start: usize,
    pub end: usize,
    pub feed: Option<usize>,
}

/// The most octets that are asked for at a time.
pub const READ_AHEAD: usize = 65_536;

// The buffer has octets for one more read after that many. Those that it hasn't had so far are 0; their room was taken
// when the reader was made, and is used only as far as lines reach.
fn widen(buffer: &mut Vec<u8>, filled: usize)
    requires { filled + read_ahead ≤ vec_capacity buffer.old }
    ensures enough { filled + read_ahead ≤ length buffer.new.items }
    ensures front { take (length buffer.old.items) buffer.new.items ≡ buffer.old.items }
    ensures length { length buffer.new.items ≤ max (length buffer.old.items) (filled + read_ahead) }
    ensures longer { length buffer.old.items ≤ length buffer.new.items }
    ensures room { vec_capacity buffer.old ≤ vec_capacity buffer.new }
{
    let end = filled + READ_AHEAD;
    if end <= buffer.len() {
        return;
    }
    match buffer.resize(end, 0) {
        Ok(()) => {}
        Err(_) => unreachable!(),
    }
}

// Reads after the first octets of the buffer, which have no line feed, until one is among them, or that many are buffered,
// or the input ends, however the source cuts it.
#[tactic(auto, using(crate::proofs::Steps::steps))]
fn read_line<S: Source>(
    source: &mut S,
    buffer: &mut Vec<u8>,
    buffered: usize,
    most: usize,
) -> Result<Buffered, SourceFailed>
    requires buffered { buffered ≤ length buffer.old.items }
    requires fits { most + read_ahead ≤ vec_capacity buffer.old + 1 }
    requires plain { IsPlain (take buffered buffer.old.items) }
    ensures line { IfOk result (HoldsLine (source_change S.Source source.old source.new) (take buffered buffer.old.items) buffer.new.items most) }
    ensures part { OnErr result (HoldsPart (source_change S.Source source.old source.new) (take buffered buffer.old.items) most) }
    ensures length { length buffer.new.items + 1 ≤ max (length buffer.old.items + 1) (most + read_ahead) }
    ensures longer { length buffer.old.items ≤ length buffer.new.items }
    ensures room { vec_capacity buffer.old ≤ vec_capacity buffer.new }
    ensures rose { OnErr result (Rose (S.faults source.old) (S.faults source.new)) }
    ensures never_falls { S.faults source.old ≤ S.faults source.new }
    ensures once { S.faults source.new ≤ S.faults source.old + 1 }
    ensures quiet { IfOk result (λ _. S.faults source.new ≡ S.faults source.old) }
{
    let mut filled = buffered;
    while filled < most {
        widen(buffer, filled);
        let count = source.read(&mut buffer[filled..filled + READ_AHEAD])?;
        if count == 0 {
            return Ok(Buffered {
                start: 0,
                end: filled,
                feed: None,
            });
        }
        if let Some(at) = first_feed(&buffer[filled..filled + count]) {
            return Ok(Buffered {
                start: 0,
                end: filled + count,
                feed: Some(filled + at),
            });
        }
        filled += count;
    }
    Ok(Buffered {
        start: 0,
        end: filled,
        feed: None,
    })
}

/// The octets `start..end` of the buffer, and after them those that the source still has to give until a line feed is
/// among them, or that many are buffered, or the input ends. It asks the source only where they have no line feed, and moves
/// them to the front of the buffer then.
#[tactic(auto, using(crate::proofs::Steps::steps))]
pub fn hold_line<S: Source>(
    source: &mut S,
    buffer: &mut Vec<u8>,
    start: usize,
    end: usize,
    most: usize,
) -> Result<Buffered, SourceFailed>
    requires window { start ≤ end }
    requires within { end ≤ length buffer.old.items }
    requires fits { most + read_ahead ≤ vec_capacity buffer.old + 1 }
    ensures line { IfOk result (HoldsLine (source_change S.Source source.old source.new) (slice_range buffer.old.items start end) buffer.new.items most) }
    ensures part { OnErr result (HoldsPart (source_change S.Source source.old source.new) (slice_range buffer.old.items start end) most) }
    ensures length { length buffer.new.items + 1 ≤ max (length buffer.old.items + 1) (most + read_ahead) }
    ensures longer { length buffer.old.items ≤ length buffer.new.items }
    ensures room { vec_capacity buffer.old ≤ vec_capacity buffer.new }
    ensures asks { IsPlain (slice_range buffer.old.items start end) ⊎ (source.new ≡ source.old) }
    ensures rose { OnErr result (Rose (S.faults source.old) (S.faults source.new)) }
    ensures never_falls { S.faults source.old ≤ S.faults source.new }
    ensures once { S.faults source.new ≤ S.faults source.old + 1 }
    ensures quiet { IfOk result (λ _. S.faults source.new ≡ S.faults source.old) }
{
    if let Some(at) = first_feed(&buffer[start..end]) {
        return Ok(Buffered {
            start,
            end,
            feed: Some(at),
        });
    }
    buffer.copy_within(start..end, 0);
    read_line(source, buffer, end - start, most)
}
