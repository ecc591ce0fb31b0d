//! A source over a reader.
ghost use Rattle.std.specs.Prelude.{◌≡◌, ◌+◌, ◌^◌, ◌≤◌, ◌<◌, ◌⊎◌, length, take, IfOk, OnErr, MatchResult};
ghost use Rattle.std.specs.Io.KnownBytes.{Consumes, IsAtEnd, Keeps};
ghost use Rattle.ax_endpoints.specs.Told.{Rose, one_more};

use crate::sources::{Source, SourceFailed};
use std::io::Read;

/// A source over a reader. It doesn't tell what it has left; what it gives is what the reader gave.
#[derive(Drop)]
pub struct ReadSource<R: Read> {
    inner: R,
    faults: u64,
    taken: u64,
}

impl<R: Read> ReadSource<R> {
    /// A source over that reader, with nothing taken and no fault counted. It takes no memory.
    pub fn new(inner: R) -> Self
        ensures no_fault { result.faults ≡ 0 }
        ensures nothing_taken { result.taken ≡ 0 }
    {
        ReadSource {
            inner,
            faults: 0,
            taken: 0,
        }
    }

    /// How many reads failed; 2^64 - 1 where more did.
    pub fn faults(&self) -> u64
        ensures { result ≡ self.now.faults }
    {
        self.faults
    }

    /// How many octets were taken.
    pub fn taken(&self) -> u64
        ensures { result ≡ self.now.taken }
    {
        self.taken
    }
}

impl<R: Read> Source for ReadSource<R> {
    ghost use Rattle.std.specs.Prelude.{None};

    ghost left = { λ _. None };

    ghost faults = { λ s. s.faults };

    ghost taken = { λ s. s.taken };

    #[inline]
    fn read(&mut self, into: &mut [u8]) -> Result<usize, SourceFailed>
        ensures room { IfOk result (λ n. n ≤ length into.new) }
        ensures passes { IfOk result (λ n. Consumes (R.remaining self.old.inner) (R.remaining self.new.inner) (take n into.new)) }
        ensures end { IfOk result (λ n. n ≡ 0 → 0 < length into.new → IsAtEnd (R.remaining self.new.inner)) }
        ensures number { MatchResult result (λ n. self.new.taken ≡ self.old.taken + n) (λ _. self.new.taken ≡ self.old.taken) }
        ensures takes_nothing { OnErr result (Keeps (R.remaining self.old.inner) (R.remaining self.new.inner) ⊎ (2 ^ 64 ≤ self.old.taken + length into.new)) }
        ensures counts { MatchResult result (λ _. self.new.faults ≡ self.old.faults) (λ _. self.new.faults ≡ one_more self.old.faults) }
        ensures rose { OnErr result (Rose self.old.faults self.new.faults) }
        ensures never_falls { self.old.faults ≤ self.new.faults }
        ensures once { self.new.faults ≤ self.old.faults + 1 }
        ensures quiet { IfOk result (λ _. self.new.faults ≡ self.old.faults) }
    {
        if let Ok(count) = self.inner.read(into) {
            if let Some(taken) = self.taken.checked_add(count as u64) {
                self.taken = taken;
                return Ok(count);
            }
        }
        self.faults = self.faults.saturating_add(1);
        Err(SourceFailed)
    }
}
