//! What octets are read from.
ghost use Rattle.std.specs.Prelude.{◌≡◌, ℕ, ◌+◌, ◌<◌, ◌≤◌, List, [], Option, Some, length, take, IfOk, OnErr, MatchResult};
ghost use Rattle.ax_endpoints.specs.Told.{with_front, IsAtEnd, Rose};

/// A read failed, and nothing was taken.
#[derive(Clone, Copy, Debug, PartialEq, Eq)]
pub struct SourceFailed;

/// A source of octets.
pub trait Source {
    // The octets left, where the source tells them.
    ghost left: { Self → Option (List ℕ) };

    // The count of faults.
    ghost faults: { Self → ℕ };

    // The number of octets taken.
    ghost taken: { Self → ℕ };

    /// Reads the next octets into the front of `into`, and answers how many they are: none, for a nonempty `into`,
    /// at the end of the input. What stands in `into` past them isn't said.
    ///
    /// A `SourceFailed` is counted as a fault, and takes nothing. A call counts one fault at most, and none where it
    /// succeeds.
    fn read(&mut self, into: &mut [u8]) -> Result<usize, SourceFailed>
        ensures room { IfOk result (λ n. n ≤ length into.new) }
        ensures gives { IfOk result (λ n. left self.old ≡ with_front (take n into.new) (left self.new)) }
        ensures end { IfOk result (λ n. n ≡ 0 → 0 < length into.new → IsAtEnd (left self.old)) }
        ensures end_again { IfOk result (λ n. left self.old ≡ Some [] → n ≡ 0) }
        ensures number { MatchResult result (λ n. taken self.new ≡ taken self.old + n) (λ _. taken self.new ≡ taken self.old) }
        ensures number_never_falls { taken self.old ≤ taken self.new }
        ensures keeps { OnErr result (left self.new ≡ left self.old) }
        ensures rose { OnErr result (Rose (faults self.old) (faults self.new)) }
        ensures never_falls { faults self.old ≤ faults self.new }
        ensures once { faults self.new ≤ faults self.old + 1 }
        ensures quiet { IfOk result (λ _. faults self.new ≡ faults self.old) };
}
