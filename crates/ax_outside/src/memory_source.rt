//! A source in memory, for tests and proofs: it tells what it has left.
ghost use Rattle.std.specs.Prelude.{◌≡◌, ◌+◌, ◌≤◌, ◌<◌, ◌↔◌, ◌++◌, length, take, drop, min, IsTrue, IfOk, IsErr, OnErr, MatchResult};
ghost use Rattle.ax_endpoints.specs.Told.{Rose, one_more};
ghost use Rattle.ax_outside.specs.Memory.{SourceState, is_listed, most_of_call};

use crate::calls::is_listed;
use ax_endpoints::{Source, SourceFailed};
use std::marker::Model;

/// A source of octets in memory, whose calls are cut and fail as its maker says.
pub struct MemSource {
    octets: Vec<u8>,
    at: usize,
    cuts: Vec<u32>,
    failing: Vec<u64>,
    call: u64,
    faults: u64,
}

impl Drop for MemSource {
    fn drop(self) {
        let MemSource {
            octets: _octets,
            at: _at,
            cuts: _cuts,
            failing: _failing,
            call: _call,
            faults: _faults,
        } = self;
    }
}

impl Model for MemSource {
    ghost Value = { SourceState };

    ghost view = { λ s. record {
      left = drop s.at s.octets.items;
      taken = s.at;
      cuts = s.cuts.items;
      failing = s.failing.items;
      call = s.call;
      faults = s.faults;
    } };

    ghost invariant = { λ s. s.at ≤ length s.octets.items };
}

impl MemSource {
    /// A source of these octets, with nothing taken and no fault counted. It takes no memory.
    ///
    /// The call of number i, from 0, gives at most `cuts[i]` octets, a cut of 0 counting as 1; past the list it gives
    /// what is asked. The calls numbered in `failing` fail, and only those. A call number that has reached
    /// 2^64 - 1 stays there.
    pub fn new(octets: Vec<u8>, cuts: Vec<u32>, failing: Vec<u64>) -> MemSource
        ensures { result ≡ record {
          left = octets.items;
          taken = 0;
          cuts = cuts.items;
          failing = failing.items;
          call = 0;
          faults = 0;
        } }
    {
        MemSource {
            octets,
            at: 0,
            cuts,
            failing,
            call: 0,
            faults: 0,
        }
    }

    /// How many reads failed; 2^64 - 1 where more did.
    pub fn faults(&self) -> u64
        ensures { result ≡ self.now.faults }
    {
        self.faults
    }
}

// The most octets that the call of that number gives of those asked.
fn most_of_call(cuts: &[u32], call: u64, asked: usize) -> usize
    ensures { result ≡ most_of_call cuts.now call asked }
{
    match cuts.get(call as usize) {
        Some(cut) => (*cut).max(1) as usize,
        None => asked,
    }
}

impl Source for MemSource {
    ghost use Rattle.std.specs.Prelude.{Some};

    ghost left = { λ s. Some s.left };

    ghost faults = { λ s. s.faults };

    ghost taken = { λ s. s.taken };

    fn read(&mut self, into: &mut [u8]) -> Result<usize, SourceFailed>
        ensures failing { IsErr result ↔ IsTrue (is_listed self.old.failing self.old.call) }
        ensures cut { IfOk result (λ n. n ≡ min (min (length into.new) (length self.old.left)) (most_of_call self.old.cuts self.old.call (length into.new))) }
        ensures gives { IfOk result (λ n. self.old.left ≡ take n into.new ++ self.new.left) }
        ensures number { MatchResult result (λ n. self.new.taken ≡ self.old.taken + n) (λ _. self.new.taken ≡ self.old.taken) }
        ensures keeps { OnErr result (self.new.left ≡ self.old.left) }
        ensures counts { MatchResult result (λ _. self.new.faults ≡ self.old.faults) (λ _. self.new.faults ≡ one_more self.old.faults) }
        ensures next_call { self.new.call ≡ one_more self.old.call }
        ensures same_cuts { self.new.cuts ≡ self.old.cuts }
        ensures same_failing { self.new.failing ≡ self.old.failing }
        ensures rose { OnErr result (Rose self.old.faults self.new.faults) }
        ensures never_falls { self.old.faults ≤ self.new.faults }
        ensures once { self.new.faults ≤ self.old.faults + 1 }
        ensures quiet { IfOk result (λ _. self.new.faults ≡ self.old.faults) }
    {
        let call = self.call;
        self.call = call.saturating_add(1);
        if is_listed(&self.failing, call) {
            self.faults = self.faults.saturating_add(1);
            return Err(SourceFailed);
        }
        let rest = &self.octets[self.at..];
        let most = most_of_call(&self.cuts, call, into.len());
        let count = into.len().min(rest.len()).min(most);
        into[..count].copy_from_slice(&rest[..count]);
        self.at += count;
        Ok(count)
    }
}
