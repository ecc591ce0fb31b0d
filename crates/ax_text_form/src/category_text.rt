//! A category as a text.
ghost use Rattle.std.specs.Prelude.{◌≡◌, ◌<◌, ℕ, MatchOption};
ghost use Rattle.ax_format.specs.Paths.{three_digits};

use ax_format::category_of_digits;

/// The category that the text is, in three digits. None comes exactly where it is none.
#[tactic(auto, using(crate::proofs::CategoryTexts::categories))]
pub fn category_of(text: &[u8]) -> Option<u8>
    ensures { MatchOption result ((n : ℕ) → n < 256 → text.now ≡ three_digits n → ⊥) (λ n. (n < 256) × (text.now ≡ three_digits n)) }
{
    let [hundreds, tens, ones] = text else {
        return None;
    };
    category_of_digits(*hundreds, *tens, *ones)
}
