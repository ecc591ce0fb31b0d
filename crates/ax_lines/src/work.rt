//! What a line command does with one line.
ghost use Rattle.std.specs.Prelude.{◌≡◌, ◌≤◌, List, ℕ, length};
ghost use Rattle.ax_lines.specs.Commands.{LineCommand, KeepsTo};
ghost use Rattle.ax_lines.specs.Ending.{longest_line};
ghost use Rattle.ax_lines.specs.Taking.{TakesLine};

/// Why a line has no result.
#[derive(Clone, Copy)]
pub enum LineStop<F> {
    /// The line is refused.
    Refused(F),
    /// No memory was left for it.
    OutOfMemory,
}

/// What a line command does with the lines of an input, one after another.
pub trait LineWork {
    /// Why it refuses a line.
    type Fault;

    // The command: which answer each line has.
    ghost command: { Self → LineCommand Self.Fault };

    // What the work relies on from one line to the next.
    ghost sound: { Self → Type 0 };

    // The octets laid for the output.
    ghost laid: { Self → List ℕ };

    /// Judges the whole line of that number, given without its line feed, and lays its octets for the output. It answers
    /// whether the line has any result.
    fn take(&mut self, number: u64, line: &[u8]) -> Result<bool, LineStop<Self::Fault>>
        requires sound { sound self.old }
        requires short { length line.now ≤ longest_line }
        ensures takes { TakesLine (command self.old) number line.now (laid self.new) result }
        ensures same { KeepsTo (command self.old) (command self.new) }
        ensures still_sound { sound self.new };

    /// The octets that were laid last.
    fn octets(&self) -> &[u8]
        ensures { result.now ≡ laid self.now };
}
