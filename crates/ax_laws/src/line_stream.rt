//! The laws of line commands. Each function stands for what its contract says.
ghost use Rattle.std.specs.Prelude.{◌≡◌, ℕ, List};
ghost use Rattle.ax_lines.specs.Commands.{LineAnswer, HasOneAnswer};
ghost use Rattle.ax_lines.specs.Runs.{LinesAnswer};
ghost use Rattle.ax_lines.specs.declared.end.LinesEnd.{LinesEnd};

use ax_lines::LineWork;

/// An input has one answer by a line command that has no two for a line: one end, and one list of lines with their answers.
pub fn one_answer<W: LineWork>(work: &W)
    ensures { (line_limit limit : ℕ) (input : List ℕ)
        (lines others : List (List ℕ)) (answers replies : List (LineAnswer W.Fault)) (end other : LinesEnd W.Fault)
        → HasOneAnswer (W.command work.now) → LinesAnswer (W.command work.now) line_limit limit input lines answers end
        → LinesAnswer (W.command work.now) line_limit limit input others replies other
        → (lines ≡ others) × (answers ≡ replies) × (end ≡ other) }
{}

/// An input has an answer by a line command that has one for each line.
pub fn some_answer<W: LineWork>(work: &W)
    ensures { (line_limit limit : ℕ) (input : List ℕ)
        → ((number : ℕ) (octets : List ℕ) → (answer : LineAnswer W.Fault) × W.command work.now number octets answer)
        → (lines : List (List ℕ)) × (answers : List (LineAnswer W.Fault)) × (end : LinesEnd W.Fault)
        × LinesAnswer (W.command work.now) line_limit limit input lines answers end }
{}
