//! The laws of the grammar. Each function stands for what its contract says.

ghost use Rattle.std.specs.Prelude.{◌≡◌, ℕ, ◌⊎◌, List};
ghost use Rattle.ax_format.specs.Specification.{SpecTree};
ghost use Rattle.ax_tokens.specs.Depth.{IsWithin};
ghost use Rattle.ax_tokens.specs.Lexing.{AreTokensOf};
ghost use Rattle.ax_tokens.specs.PlainToken.{PlainToken};
ghost use Rattle.ax_grammar.specs.Answers.{NamesBadToken, SpellsSpec};
ghost use Rattle.ax_grammar.specs.InRange.{InRange, AreNumbersInRange};
ghost use Rattle.ax_grammar.specs.Printing.{spelled_tokens};
ghost use Rattle.ax_grammar.specs.Spelling.{spelled, printed};

/// A spelling determines its specification.
pub fn spelling_once()
    ensures { (spec other : SpecTree) → InRange spec → InRange other → spelled spec ≡ spelled other → spec ≡ other }
{}

/// A printed specification is read back: its tokens, where its braces stay within the limit, are those that were
/// printed, and they spell it.
pub fn printed_spec_read_back()
    ensures tokens { (spec : SpecTree) (limit : ℕ) → InRange spec → IsWithin limit (spelled_tokens spec)
        → AreTokensOf (printed spec) limit (spelled_tokens spec) }
    ensures spells { (spec : SpecTree) → InRange spec → SpellsSpec (spelled_tokens spec) spec }
{}

/// What tokens spell can be printed.
pub fn spelled_is_printable()
    ensures { (spec : SpecTree) → InRange spec → AreNumbersInRange spec }
{}

/// Any tokens spell a specification, or one of them is the first bad one.
pub fn spelled_or_bad()
    ensures { (tokens : List PlainToken) → ((spec : SpecTree) × SpellsSpec tokens spec) ⊎ ((token : ℕ) × NamesBadToken tokens token) }
{}
