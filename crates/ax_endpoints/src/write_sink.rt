//! A sink over a writer.
ghost use Rattle.std.specs.Prelude.{◌≡◌, ◌+◌, ◌<◌, ◌≤◌, length, take, IfOk, OnErr, MatchResult};
ghost use Rattle.std.specs.Io.KnownBytes.{Appends, Keeps};
ghost use Rattle.ax_endpoints.specs.Told.{Rose, one_more};

use crate::sinks::{Sink, SinkFailed};
use std::io::Write;

/// A sink over a writer. It doesn't tell what it holds; what it takes it has given to the writer.
#[derive(Drop)]
pub struct WriteSink<W: Write> {
    inner: W,
    faults: u64,
}

impl<W: Write> WriteSink<W> {
    /// A sink over that writer, with no fault counted. It takes no memory.
    pub fn new(inner: W) -> Self
        ensures { result.faults ≡ 0 }
    {
        WriteSink { inner, faults: 0 }
    }

    /// How many writes failed; 2^64 - 1 where more did.
    pub fn faults(&self) -> u64
        ensures { result ≡ self.now.faults }
    {
        self.faults
    }
}

impl<W: Write> Sink for WriteSink<W> {
    ghost use Rattle.std.specs.Prelude.{None};

    ghost held = { λ _. None };

    ghost faults = { λ s. s.faults };

    #[inline(always)]
    fn write(&mut self, piece: &[u8]) -> Result<usize, SinkFailed>
        ensures within { IfOk result (λ n. n ≤ length piece.now) }
        ensures some { IfOk result (λ n. 0 < length piece.now → 0 < n) }
        ensures passes { IfOk result (λ n. Appends (W.contents self.old.inner) (W.contents self.new.inner) (take n piece.now)) }
        ensures adds_nothing { OnErr result (Keeps (W.contents self.old.inner) (W.contents self.new.inner)) }
        ensures counts { MatchResult result (λ _. self.new.faults ≡ self.old.faults) (λ _. self.new.faults ≡ one_more self.old.faults) }
        ensures rose { OnErr result (Rose self.old.faults self.new.faults) }
        ensures never_falls { self.old.faults ≤ self.new.faults }
        ensures once { self.new.faults ≤ self.old.faults + 1 }
        ensures quiet { IfOk result (λ _. self.new.faults ≡ self.old.faults) }
    {
        if let Ok(count) = self.inner.write(piece) {
            if count > 0 || piece.is_empty() {
                return Ok(count);
            }
        }
        self.faults = self.faults.saturating_add(1);
        Err(SinkFailed)
    }
}
