//! Whole pieces and whole buffers, however the calls below cut them.
ghost use Rattle.std.specs.Prelude.{◌≡◌, ℕ, ◌+◌, ◌<◌, ◌≤◌, length, take, IfOk, OnOk, OnErr};
ghost use Rattle.ax_endpoints.specs.Changes.{TakesFront, source_change};
ghost use Rattle.ax_endpoints.specs.Told.{with_front, with_end, IsAtEnd, Rose};

use crate::sinks::{Sink, SinkFailed};
use crate::sources::{Source, SourceFailed};

/// Writes the whole piece, in as many calls as the sink needs.
///
/// At `SinkFailed` a prefix of the piece was added, not all of it, and the sink counted a fault. No call is made after one
/// that failed: one fault at most is counted, and none where the piece was written.
#[tactic(auto, using(crate::proofs::Ends::steps))]
pub fn write_all_of<K: Sink>(sink: &mut K, piece: &[u8]) -> Result<(), SinkFailed>
    ensures whole { OnOk result (K.held sink.new ≡ with_end (K.held sink.old) piece.now) }
    ensures prefix { OnErr result ((n : ℕ) × (n < length piece.now) × (K.held sink.new ≡ with_end (K.held sink.old) (take n piece.now))) }
    ensures rose { OnErr result (Rose (K.faults sink.old) (K.faults sink.new)) }
    ensures never_falls { K.faults sink.old ≤ K.faults sink.new }
    ensures once { K.faults sink.new ≤ K.faults sink.old + 1 }
    ensures quiet { OnOk result (K.faults sink.new ≡ K.faults sink.old) }
{
    let mut at = 0;
    while at < piece.len() {
        at += sink.write(&piece[at..])?;
    }
    Ok(())
}

/// Reads into the front of the buffer until the input ends or the buffer is full, however the source cuts it,
/// and answers how many octets it read.
///
/// At `SourceFailed` the octets read so far stand at the front of the buffer, which they don't fill, and the source
/// counted a fault. No call is made after one that failed: one fault at most is counted, and none where it succeeds.
#[inline]
#[tactic(auto, using(crate::proofs::Ends::steps))]
pub fn fill<S: Source>(source: &mut S, buffer: &mut [u8]) -> Result<usize, SourceFailed>
    ensures room { IfOk result (λ n. n ≤ length buffer.new) }
    ensures gives { IfOk result (λ n. S.left source.old ≡ with_front (take n buffer.new) (S.left source.new)) }
    ensures end { IfOk result (λ n. n < length buffer.new → IsAtEnd (S.left source.new)) }
    ensures number { IfOk result (λ n. S.taken source.new ≡ S.taken source.old + n) }
    ensures front { OnErr result (TakesFront (source_change S.Source source.old source.new) buffer.new) }
    ensures rose { OnErr result (Rose (S.faults source.old) (S.faults source.new)) }
    ensures never_falls { S.faults source.old ≤ S.faults source.new }
    ensures once { S.faults source.new ≤ S.faults source.old + 1 }
    ensures quiet { IfOk result (λ _. S.faults source.new ≡ S.faults source.old) }
{
    let mut filled = 0;
    while filled < buffer.len() {
        let count = source.read(&mut buffer[filled..])?;
        if count == 0 {
            return Ok(filled);
        }
        filled += count;
    }
    Ok(filled)
}
