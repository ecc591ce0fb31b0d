//! The laws of filters. Each function stands for what its contract says.
ghost use Rattle.std.specs.Prelude.{◌≡◌, ℕ, ◌⊎◌, List};
ghost use Rattle.ax_format.specs.Specification.{SpecTree};
ghost use Rattle.ax_tokens.specs.FirstBad.{FirstBad};
ghost use Rattle.ax_tokens.specs.Stopping.{texts_of};
ghost use Rattle.ax_tokens.specs.PlainToken.{PlainToken};
ghost use Rattle.ax_format.specs.Tree.{EntriesTree, no_entries};
ghost use Rattle.ax_laws.specs.Absent.{HasNoneOf};
ghost use Rattle.ax_expressions.specs.Answers.{Spells};
ghost use Rattle.ax_expressions.specs.Faults.{IsFault};
ghost use Rattle.ax_expressions.specs.Meaning.{holds};
ghost use Rattle.ax_expressions.specs.FilterTokens.{IsFilterOf};
ghost use Rattle.ax_expressions.specs.Spelling.{IsExpr};
ghost use Rattle.ax_expressions.specs.Texts.{IsFilterText, IsRefused};
ghost use Rattle.ax_expressions.specs.Tree.{ExprTree};
ghost use Rattle.ax_expressions.specs.declared.error.FilterError.{FilterError};
ghost use Rattle.ax_expressions.specs.declared.error.FilterError.TheVariants as Fault;
ghost use Rattle.ax_expressions.specs.declared.stop.FilterFault.{FilterFault};

/// Tokens spell one expression at most.
pub fn expression_once()
    ensures { (tokens : List PlainToken) (e other : ExprTree) → Spells tokens e → Spells tokens other → e ≡ other }
{}

/// Any tokens spell an expression, or one of them is the first bad one.
pub fn expression_or_bad()
    ensures { (tokens : List PlainToken) → ((e : ExprTree) × Spells tokens e) ⊎ ((token : ℕ) × FirstBad IsExpr (texts_of tokens) token) }
{}

/// Tokens are a filter over a catalogue or have one fault, if memory doesn't run out.
pub fn fault_once()
    ensures one { (catalogue : List SpecTree) (tokens : List PlainToken) (a b : FilterError)
        → IsFault catalogue (texts_of tokens) a → IsFault catalogue (texts_of tokens) b
        → (a ≡ b) ⊎ ((a ≡ Fault.OutOfMemory) ⊎ (b ≡ Fault.OutOfMemory)) }
    ensures none { (catalogue : List SpecTree) (tokens : List PlainToken) (e : ExprTree) (error : FilterError)
        → IsFilterOf catalogue tokens e → IsFault catalogue (texts_of tokens) error → error ≡ Fault.OutOfMemory }
{}

/// A text is one filter over a catalogue, or is refused with one fault, and never both.
pub fn text_once()
    ensures filter { (catalogue : List SpecTree) (text : List ℕ) (e other : ExprTree) → IsFilterText catalogue text e
        → IsFilterText catalogue text other → e ≡ other }
    ensures fault { (catalogue : List SpecTree) (text : List ℕ) (a b : FilterFault) → IsRefused catalogue text a
        → IsRefused catalogue text b → a ≡ b }
    ensures never_both { (catalogue : List SpecTree) (text : List ℕ) (e : ExprTree) (fault : FilterFault)
        → IsFilterText catalogue text e → IsRefused catalogue text fault → ⊥ }
{}

/// Any text is a filter over a catalogue, or is refused with a fault.
pub fn filter_or_refused()
    ensures { (catalogue : List SpecTree) (text : List ℕ) → ((e : ExprTree) × IsFilterText catalogue text e)
        ⊎ ((fault : FilterFault) × IsRefused catalogue text fault) }
{}

/// An expression says of a record that has none of the items that it asks what it says of a record without items. Items of which
/// it asks under another category are none of these.
pub fn absent_items_as_none()
    ensures { (catalogue : List SpecTree) (category : ℕ) (r : EntriesTree) (e : ExprTree) → HasNoneOf catalogue category r e
        → holds catalogue category r e ≡ holds catalogue category no_entries e }
{}
