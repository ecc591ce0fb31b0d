//! Worked examples of the shapes. Each function stands for what its contract says.
ghost use Rattle.std.specs.Prelude.{[], ◌∷◌, codes};
ghost use Rattle.ax_words.specs.Words.{HasShape, HasNoShape};
ghost use Rattle.ax_words.specs.declared.line.Line.TheVariants as LineOf;

/// Words and the lines that they ask for. An empty word is a word as any other.
pub fn words_with_a_shape()
    ensures check { HasShape (codes "check" ∷ codes "A" ∷ []) (LineOf.Check (codes "A")) }
    ensures canon { HasShape (codes "canon" ∷ codes "A" ∷ [] ∷ []) (LineOf.Canon (codes "A" ∷ [] ∷ [])) }
    ensures filter { HasShape (codes "filter" ∷ codes "all { }" ∷ codes "A" ∷ []) (LineOf.Filter (codes "all { }") (codes "A" ∷ [])) }
    ensures trial { HasShape (codes "trial" ∷ codes "Z" ∷ codes "0" ∷ codes "1000000" ∷ []) (LineOf.Trial (codes "Z") 0 1000000) }
    ensures expand { HasShape (codes "expand" ∷ codes "B" ∷ codes "X" ∷ []) (LineOf.Expand (codes "B") (codes "X")) }
    ensures convert { HasShape (codes "convert" ∷ codes "A" ∷ codes "B" ∷ []) (LineOf.Convert (codes "A") (codes "B")) }
    ensures help { HasShape (codes "--help" ∷ []) LineOf.Help }
{}

/// Words that ask for no line: without a verb, with too few or too many words after it, or with `-` before a word.
pub fn words_without_a_shape()
    ensures none { HasNoShape [] }
    ensures verb { HasNoShape (codes "help" ∷ []) }
    ensures few { HasNoShape (codes "canon" ∷ []) }
    ensures many { HasNoShape (codes "check" ∷ codes "A" ∷ codes "E" ∷ []) }
    ensures expansions { HasNoShape (codes "expand" ∷ codes "B" ∷ codes "X" ∷ codes "Y" ∷ []) }
    ensures editions { HasNoShape (codes "convert" ∷ codes "A" ∷ []) }
    ensures dash { HasNoShape (codes "canon" ∷ codes "A" ∷ codes "--help" ∷ []) }
    ensures beside { HasNoShape (codes "--help" ∷ codes "A" ∷ []) }
{}
