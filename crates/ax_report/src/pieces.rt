//! Texts and numbers, one after another.
ghost use Rattle.std.specs.Prelude.{◌≡◌, ◌++◌, codes, decimal};
ghost use Rattle.ax_endpoints.specs.Changes.{Wrote, sink_change};
ghost use Rattle.ax_report.specs.Lines.{numbered};

use ax_endpoints::{Sink, SinkFailed, write_text};
use itoa::Buffer;

/// Writes a number in decimal.
pub fn write_number<K: Sink>(sink: &mut K, number: u64) -> Result<(), SinkFailed>
    ensures { Wrote (sink_change K.Sink sink.old sink.new) result (decimal number) }
{
    let mut buffer = Buffer::new();
    write_text(sink, buffer.format(number).as_bytes())
}

/// Writes a text and a number after it.
#[tactic(auto, using(ax_endpoints::proofs::Pieces::pieces))]
pub fn write_numbered<K: Sink>(sink: &mut K, front: &[u8], number: u64) -> Result<(), SinkFailed>
    ensures { Wrote (sink_change K.Sink sink.old sink.new) result (numbered front.now number) }
{
    write_text(sink, front)?;
    write_number(sink, number)
}

/// Writes two texts.
#[tactic(auto, using(ax_endpoints::proofs::Pieces::pieces))]
pub fn write_two<K: Sink>(sink: &mut K, first: &[u8], second: &[u8]) -> Result<(), SinkFailed>
    ensures { Wrote (sink_change K.Sink sink.old sink.new) result (first.now ++ second.now) }
{
    write_text(sink, first)?;
    write_text(sink, second)
}

/// Writes three texts.
#[tactic(auto, using(ax_endpoints::proofs::Pieces::pieces))]
pub fn write_three<K: Sink>(
    sink: &mut K,
    first: &[u8],
    second: &[u8],
    third: &[u8],
) -> Result<(), SinkFailed>
    ensures { Wrote (sink_change K.Sink sink.old sink.new) result (first.now ++ (second.now ++ third.now)) }
{
    write_text(sink, first)?;
    write_two(sink, second, third)
}

/// Writes a text and a number after it, and then a text.
#[tactic(auto, using(ax_endpoints::proofs::Pieces::pieces))]
pub fn write_numbered_text<K: Sink>(
    sink: &mut K,
    front: &[u8],
    number: u64,
    end: &[u8],
) -> Result<(), SinkFailed>
    ensures { Wrote (sink_change K.Sink sink.old sink.new) result (numbered front.now number ++ end.now) }
{
    write_numbered(sink, front, number)?;
    write_text(sink, end)
}

/// Writes a line that ends in a number: a text and a number, and again a text and a number.
#[tactic(auto, using(ax_endpoints::proofs::Pieces::pieces))]
pub fn write_two_numbers<K: Sink>(
    sink: &mut K,
    front: &[u8],
    number: u64,
    middle: &[u8],
    last: u64,
) -> Result<(), SinkFailed>
    ensures { Wrote (sink_change K.Sink sink.old sink.new) result (numbered front.now number ++ (numbered middle.now last ++ codes "\n")) }
{
    write_numbered(sink, front, number)?;
    write_numbered_text(sink, middle, last, b"\n")
}
