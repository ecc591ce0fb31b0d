//! Worked examples of the definition of lines. Each function stands for what its contract says.
ghost use Rattle.std.specs.Prelude.{[], ◌∷◌, ◌++◌, codes};
ghost use Rattle.ax_lines.specs.Lined.{Lined, all_lines, input_too_long, line_too_long};

/// Lines of texts: a line feed ends a line, the last needs none, an empty rest is no line, a carriage return is an octet of
/// its line.
pub fn lines_of_texts()
    ensures none { Lined 4 100 0 [] [] all_lines }
    ensures one { Lined 4 100 0 (codes "abcd" ++ 10 ∷ []) (codes "abcd" ∷ []) all_lines }
    ensures empty { Lined 4 100 0 (codes "a" ++ 10 ∷ 10 ∷ codes "bc") (codes "a" ∷ [] ∷ codes "bc" ∷ []) all_lines }
    ensures returned { Lined 4 100 0 (97 ∷ 13 ∷ 10 ∷ []) ((97 ∷ 13 ∷ []) ∷ []) all_lines }
{}

/// Ends of lines: the first octet past a limit, that of the input where it is one octet.
pub fn ends_of_lines()
    ensures line { Lined 4 100 0 (codes "abcde") [] line_too_long }
    ensures both { Lined 4 4 0 (codes "abcde") [] input_too_long }
    ensures feed { Lined 4 4 0 (codes "abcd" ++ 10 ∷ []) [] input_too_long }
    ensures second { Lined 4 7 0 (codes "a" ++ 10 ∷ codes "bcdef") (codes "a" ∷ []) line_too_long }
    ensures sooner { Lined 4 6 0 (codes "a" ++ 10 ∷ codes "bcdef") (codes "a" ∷ []) input_too_long }
{}
