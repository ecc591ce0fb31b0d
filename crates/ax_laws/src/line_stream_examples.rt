//! Worked examples of what a line command answers. Each function stands for what its contract says.
ghost use Rattle.std.specs.Prelude.{◌≡◌, ℕ, [], ◌∷◌, codes};
ghost use Rattle.ax_lines.specs.Commands.{gives, nothing, refused, HasOneAnswer, output_of, results_of, AreAnswered};
ghost use Rattle.ax_lines.specs.Examples.{echo_command};
ghost use Rattle.ax_laws.specs.LineExamples.{Echoes};
ghost use Rattle.ax_lines.specs.declared.end.LinesEnd.TheVariants.{Done, Refused, LineTooLong, InputTooLong};

/// An empty line counts as a line and not as a result: the line after it has the next number.
pub fn answers_of_texts()
    ensures one { HasOneAnswer echo_command }
    ensures answered { AreAnswered echo_command (codes "12" ∷ [] ∷ codes "3" ∷ []) (gives (codes "12") ∷ nothing ∷ gives (codes "3") ∷ []) }
    ensures results { results_of {F = ℕ} (gives (codes "12") ∷ nothing ∷ gives (codes "3") ∷ refused 3 ∷ []) ≡ 2 }
    ensures output { output_of {F = ℕ} (gives (codes "12") ∷ nothing ∷ gives (codes "3") ∷ refused 3 ∷ []) ≡ codes "123" }
    ensures done { Echoes 4 100 (codes "1\n\n2") (codes "1" ∷ [] ∷ codes "2" ∷ []) (gives (codes "1") ∷ nothing ∷ gives (codes "2") ∷ []) (Done 2) }
    ensures refused { Echoes 4 100 (codes "1\n\nx\n2") (codes "1" ∷ [] ∷ []) (gives (codes "1") ∷ nothing ∷ []) (Refused 2 2) }
    ensures too_long { Echoes 1 100 (codes "1\n\n23") (codes "1" ∷ [] ∷ []) (gives (codes "1") ∷ nothing ∷ []) (LineTooLong 2) }
{}

/// The limit on the input: a line feed may be its last octet, an octet past it ends the run with what the lines before gave,
/// a line that is refused before it counts first, and it counts first where that octet is past the limit on a line too.
pub fn ends_at_the_limit()
    ensures reached { Echoes 4 6 (codes "12\n\n3\n") (codes "12" ∷ [] ∷ codes "3" ∷ []) (gives (codes "12") ∷ nothing ∷ gives (codes "3") ∷ []) (Done 2) }
    ensures passed { Echoes 4 6 (codes "1\n2\n345") (codes "1" ∷ codes "2" ∷ []) (gives (codes "1") ∷ gives (codes "2") ∷ []) InputTooLong }
    ensures refused { Echoes 4 6 (codes "1\nx\n345") (codes "1" ∷ []) (gives (codes "1") ∷ []) (Refused 1 1) }
    ensures both { Echoes 4 6 (codes "1\n23456") (codes "1" ∷ []) (gives (codes "1") ∷ []) InputTooLong }
{}
