//! A source that gives one octet again and again, for tests: it doesn't tell what it has left.
ghost use Rattle.std.specs.Prelude.{◌≡◌, ◌+◌, ◌-◌, ◌≤◌, ◌^◌, length, min, replicate, take, IsOk, IfOk};

use ax_endpoints::{Source, SourceFailed};

/// A source of one octet, given 2^64 - 1 times. It never fails, and doesn't tell its content.
#[derive(Drop)]
pub struct EndlessSource {
    octet: u8,
    taken: u64,
}

impl EndlessSource {
    /// A source of that octet, with nothing taken. It takes no memory.
    pub fn new(octet: u8) -> EndlessSource
        ensures octet { result.octet ≡ octet }
        ensures nothing_taken { result.taken ≡ 0 }
    {
        EndlessSource { octet, taken: 0 }
    }

    /// How many of the octets asked for are given.
    fn given(&self, asked: usize) -> usize
        ensures { result ≡ min asked (2 ^ 64 - 1 - self.now.taken) }
    {
        asked.min((u64::MAX - self.taken) as usize)
    }
}

/// The same octet in each place.
fn repeat(octet: u8, into: &mut [u8])
    ensures { into.new ≡ replicate (length into.old) octet }
{
    into.fill(octet);
}

impl Source for EndlessSource {
    ghost use Rattle.std.specs.Prelude.{None};

    ghost left = { λ _. None };

    ghost faults = { λ _. 0 };

    ghost taken = { λ s. s.taken };

    fn read(&mut self, into: &mut [u8]) -> Result<usize, SourceFailed>
        ensures never_fails { IsOk result }
        ensures count { IfOk result (λ n. n ≡ min (length into.old) (2 ^ 64 - 1 - self.old.taken)) }
        ensures room { IfOk result (λ n. n ≤ length into.new) }
        ensures gives { IfOk result (λ n. take n into.new ≡ replicate n self.old.octet) }
        ensures number { IfOk result (λ n. self.new.taken ≡ self.old.taken + n) }
        ensures number_never_falls { self.old.taken ≤ self.new.taken }
        ensures same_octet { self.new.octet ≡ self.old.octet }
    {
        let count = self.given(into.len());
        repeat(self.octet, &mut into[..count]);
        self.taken += count as u64;
        Ok(count)
    }
}
