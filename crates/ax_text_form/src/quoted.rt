//! Texts in quotes.
ghost use Rattle.std.specs.Prelude.{◌≡◌, ℕ, List, MatchOption};
ghost use Rattle.ax_text_form.specs.Remarks.{quoted};

/// What stands between the quotes. None comes exactly where the text doesn't stand in quotes.
pub fn unquoted(text: &[u8]) -> Option<&[u8]>
    ensures { MatchOption result ((inner : List ℕ) → text.now ≡ quoted inner → ⊥) (λ inner. text.now ≡ quoted inner.now) }
{
    match text.split_first() {
        Some((b'"', rest)) => match rest.split_last() {
            Some((b'"', inner)) => Some(inner),
            _ => None,
        },
        _ => None,
    }
}
