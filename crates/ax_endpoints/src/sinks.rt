//! What octets are written to.
ghost use Rattle.std.specs.Prelude.{◌≡◌, ℕ, ◌+◌, ◌<◌, ◌≤◌, List, Option, length, take, IfOk, OnErr};
ghost use Rattle.ax_endpoints.specs.Told.{with_end, Rose};

/// A write failed, and nothing was added.
#[derive(Clone, Copy, Debug, PartialEq, Eq)]
pub struct SinkFailed;

/// A sink of octets.
pub trait Sink {
    // The octets held, where the sink tells them.
    ghost held: { Self → Option (List ℕ) };

    // The count of faults.
    ghost faults: { Self → ℕ };

    /// Adds octets from the front of `piece`, and answers how many: at least one of a nonempty piece.
    ///
    /// A `SinkFailed` is counted as a fault, and adds nothing. A call counts one fault at most, and none where it succeeds.
    fn write(&mut self, piece: &[u8]) -> Result<usize, SinkFailed>
        ensures within { IfOk result (λ n. n ≤ length piece.now) }
        ensures some { IfOk result (λ n. 0 < length piece.now → 0 < n) }
        ensures none { IfOk result (λ n. length piece.now ≡ 0 → n ≡ 0) }
        ensures adds { IfOk result (λ n. held self.new ≡ with_end (held self.old) (take n piece.now)) }
        ensures keeps { OnErr result (held self.new ≡ held self.old) }
        ensures rose { OnErr result (Rose (faults self.old) (faults self.new)) }
        ensures never_falls { faults self.old ≤ faults self.new }
        ensures once { faults self.new ≤ faults self.old + 1 }
        ensures quiet { IfOk result (λ _. faults self.new ≡ faults self.old) };
}
