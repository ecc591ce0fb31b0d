//! The laws of tokens. Each function stands for what its contract says.

ghost use Rattle.std.specs.Prelude.{◌≡◌, ℕ, ◌⊎◌, ◌↔◌, List, [], ◌∷◌, ◌++◌};
ghost use Rattle.ax_tokens.specs.PlainToken.{PlainToken};
ghost use Rattle.ax_tokens.specs.Octets.{line_feed};
ghost use Rattle.ax_tokens.specs.Depth.{IsWithin, KeepsWithin};
ghost use Rattle.ax_tokens.specs.Lexing.{IsTokenText, Lexes, AreTokensOf};
ghost use Rattle.ax_tokens.specs.Faults.{HasBadByte, IsTooDeep};
ghost use Rattle.ax_tokens.specs.Printing.{AreTokenTexts, spaced, placed};
ghost use Rattle.ax_tokens.specs.declared.token.TokenKind.{TokenKind};

/// A text has at most one list of tokens.
pub fn tokens_once()
    ensures { (text : List ℕ) (ts us : List PlainToken) → Lexes ts text [] → Lexes us text [] → ts ≡ us }
{}

/// Each text has tokens within the limit, or a fault.
pub fn lexed_or_faulty()
    ensures { (text : List ℕ) (limit : ℕ) →
        ((ts : List PlainToken) × AreTokensOf text limit ts)
        ⊎ ((place : ℕ) × HasBadByte text limit place) ⊎ ((number : ℕ) × IsTooDeep text limit number) }
{}

/// A text that has tokens within the limit has no fault.
pub fn never_both()
    ensures bad_byte { (text : List ℕ) (limit : ℕ) (ts : List PlainToken) (place : ℕ) → AreTokensOf text limit ts
        → HasBadByte text limit place → ⊥ }
    ensures too_deep { (text : List ℕ) (limit : ℕ) (ts : List PlainToken) (number : ℕ) → AreTokensOf text limit ts
        → IsTooDeep text limit number → ⊥ }
{}

/// A text has at most one fault.
pub fn fault_once()
    ensures bad_byte { (text : List ℕ) (limit place other : ℕ) → HasBadByte text limit place → HasBadByte text limit other
        → place ≡ other }
    ensures too_deep { (text : List ℕ) (limit number other : ℕ) → IsTooDeep text limit number → IsTooDeep text limit other
        → number ≡ other }
    ensures one_kind { (text : List ℕ) (limit place number : ℕ) → HasBadByte text limit place → IsTooDeep text limit number → ⊥ }
{}

/// The octets of a token tell its kind.
pub fn kind_by_text()
    ensures { (kind other : TokenKind) (text : List ℕ) → IsTokenText kind text → IsTokenText other text → kind ≡ other }
{}

/// No Open is deeper than the limit exactly where the level that is kept from token to token stays within it.
pub fn running_level()
    ensures { (limit : ℕ) (tokens : List PlainToken) → (IsWithin limit tokens ↔ KeepsWithin limit 0 tokens) }
{}

/// Tokens that are printed with one space between, with a line feed after them or without, are the tokens
/// of that text.
pub fn printed_tokens()
    ensures text { (ts : List (TokenKind × List ℕ)) (limit : ℕ) → AreTokenTexts ts → IsWithin limit (placed 0 ts)
        → AreTokensOf (spaced ts) limit (placed 0 ts) }
    ensures line { (ts : List (TokenKind × List ℕ)) (limit : ℕ) → AreTokenTexts ts → IsWithin limit (placed 0 ts)
        → AreTokensOf (spaced ts ++ line_feed ∷ []) limit (placed 0 ts) }
{}
