//! A sink in memory, for tests and proofs: it tells what it holds.
ghost use Rattle.std.specs.Prelude.{◌≡◌, ◌+◌, ◌-◌, ◌<◌, ◌≤◌, ◌↔◌, ◌⊎◌, ◌++◌, [], length, take, min, IsTrue, IfOk, IsErr, OnErr, MatchResult};
ghost use Rattle.ax_endpoints.specs.Told.{Rose, one_more};
ghost use Rattle.ax_outside.specs.Memory.{SinkState, is_listed, at_least_one};

use crate::calls::is_listed;
use ax_endpoints::{Sink, SinkFailed};
use std::alloc::{AllocError, Global};
use std::marker::Model;

/// A sink in memory of a fixed room, whose calls are cut and fail as its maker says.
pub struct MemSink {
    buffer: Vec<u8>,
    count: usize,
    largest: u32,
    failing: Vec<u64>,
    call: u64,
    faults: u64,
}

impl Drop for MemSink {
    fn drop(self) {
        let MemSink {
            buffer: _buffer,
            count: _count,
            largest: _largest,
            failing: _failing,
            call: _call,
            faults: _faults,
        } = self;
    }
}

impl Model for MemSink {
    ghost Value = { SinkState };

    ghost view = { λ s. record {
      held = take s.count s.buffer.items;
      room = length s.buffer.items - s.count;
      largest = s.largest;
      failing = s.failing.items;
      call = s.call;
      faults = s.faults;
    } };

    ghost invariant = { λ s. s.count ≤ length s.buffer.items };
}

impl MemSink {
    /// A sink that holds nothing and has counted no fault. The room for `room` octets is taken here, once; want of
    /// memory for it is the one refusal.
    ///
    /// A call takes at most `largest` octets, where 0 counts as 1. A call fails exactly where its number, from 0, is in
    /// `failing`, or its piece is nonempty and no room is left. A call number that has reached 2^64 - 1 stays there.
    pub fn new(
        alloc: Global,
        room: u32,
        largest: u32,
        failing: Vec<u64>,
    ) -> Result<MemSink, AllocError>
        ensures { IfOk result (λ sink. sink ≡ record {
          held = [];
          room = room;
          largest = largest;
          failing = failing.items;
          call = 0;
          faults = 0;
        }) }
    {
        let buffer = vec![in alloc; 0; room as usize]?;
        Ok(MemSink {
            buffer,
            count: 0,
            largest,
            failing,
            call: 0,
            faults: 0,
        })
    }

    /// The octets written so far.
    pub fn written(&self) -> &[u8]
        ensures { result.now ≡ self.now.held }
    {
        &self.buffer[..self.count]
    }

    /// How many writes failed; 2^64 - 1 where more did.
    pub fn faults(&self) -> u64
        ensures { result ≡ self.now.faults }
    {
        self.faults
    }
}

// Whether the call of that number fails: it is listed, or its piece is nonempty and no room is left.
fn fails(failing: &[u64], call: u64, room: usize, piece: &[u8]) -> bool
    ensures { IsTrue result ↔ (IsTrue (is_listed failing.now call) ⊎ (0 < length piece.now) × (room ≡ 0)) }
{
    is_listed(failing, call) || (room == 0 && !piece.is_empty())
}

impl Sink for MemSink {
    ghost use Rattle.std.specs.Prelude.{Some};

    ghost held = { λ s. Some s.held };

    ghost faults = { λ s. s.faults };

    fn write(&mut self, piece: &[u8]) -> Result<usize, SinkFailed>
        ensures failing { IsErr result ↔ (IsTrue (is_listed self.old.failing self.old.call) ⊎ (0 < length piece.now) × (self.old.room ≡ 0)) }
        ensures largest { IfOk result (λ n. n ≡ min (min (length piece.now) self.old.room) (at_least_one self.old.largest)) }
        ensures adds { IfOk result (λ n. self.new.held ≡ self.old.held ++ take n piece.now) }
        ensures keeps { OnErr result (self.new.held ≡ self.old.held) }
        ensures some { IfOk result (λ n. 0 < length piece.now → 0 < n) }
        ensures room { MatchResult result (λ n. self.new.room ≡ self.old.room - n) (λ _. self.new.room ≡ self.old.room) }
        ensures counts { MatchResult result (λ _. self.new.faults ≡ self.old.faults) (λ _. self.new.faults ≡ one_more self.old.faults) }
        ensures next_call { self.new.call ≡ one_more self.old.call }
        ensures same_largest { self.new.largest ≡ self.old.largest }
        ensures same_failing { self.new.failing ≡ self.old.failing }
        ensures rose { OnErr result (Rose self.old.faults self.new.faults) }
        ensures never_falls { self.old.faults ≤ self.new.faults }
        ensures once { self.new.faults ≤ self.old.faults + 1 }
        ensures quiet { IfOk result (λ _. self.new.faults ≡ self.old.faults) }
    {
        let call = self.call;
        self.call = call.saturating_add(1);
        let room = self.buffer.len() - self.count;
        if fails(&self.failing, call, room, piece) {
            self.faults = self.faults.saturating_add(1);
            return Err(SinkFailed);
        }
        let count = piece.len().min(room).min(self.largest.max(1) as usize);
        self.buffer[self.count..self.count + count].copy_from_slice(&piece[..count]);
        self.count += count;
        Ok(count)
    }
}
