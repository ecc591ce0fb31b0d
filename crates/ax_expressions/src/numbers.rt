//! Whole numbers in decimal.
ghost use Rattle.std.specs.Prelude.{◌≡◌, ◌↔◌, ◌<◌, ◌^◌, ℕ, length, decimal, pos, IsTrue, MatchOption};
ghost use Rattle.ax_expressions.specs.Words.{int_text, IsInt, IsIntText};

use itoa::Buffer;

/// Whether this is the number in decimal.
fn is_text_of(text: &[u8], number: u128) -> bool
    ensures { IsTrue result ↔ (text.now ≡ decimal number) }
{
    let mut buffer = Buffer::new();
    buffer.format(number).as_bytes() == text
}

/// The number that the text is in decimal, without leading zeros. None comes exactly where it is the text of none
/// below 2^128.
#[tactic(auto, using(crate::proofs::Decimals::numbers))]
fn decimal_of(text: &[u8]) -> Option<u128>
    ensures { MatchOption result ((n : ℕ) → n < 2 ^ 128 → text.now ≡ decimal n → ⊥) (λ n. text.now ≡ decimal n) }
{
    let Ok(written) = str::from_utf8(text) else {
        return None;
    };
    let Ok(number) = written.parse::<u128>() else {
        return None;
    };
    if !is_text_of(text, number) {
        return None;
    }
    Some(number)
}

/// The number of at most 38 digits that the text is in decimal. None comes exactly where it is the text of none.
#[tactic(auto, using(crate::proofs::Decimals::sizes))]
fn size_of(text: &[u8]) -> Option<i128>
    ensures { MatchOption result ((n : ℕ) → n < 10 ^ 38 → text.now ≡ decimal n → ⊥) (λ z. (n : ℕ) × n < 10 ^ 38 × (text.now ≡ decimal n) × (z ≡ pos n)) }
{
    let number = decimal_of(text)?;
    if number >= 100_000_000_000_000_000_000_000_000_000_000_000_000 {
        return None;
    }
    Some(number as i128)
}

/// The whole number that the text is: 1 to 38 digits without leading zeros, and `-` before a negative one. None comes
/// exactly where it is the text of none.
#[tactic(auto, using(crate::proofs::Decimals::ints))]
pub fn int_of(text: &[u8]) -> Option<i128>
    ensures { MatchOption result (IsIntText text.now → ⊥) (λ number. IsInt number × (text.now ≡ int_text number)) }
{
    match text.split_first() {
        Some((b'-', digits)) => match size_of(digits) {
            Some(size) if size > 0 => Some(-size),
            _ => None,
        },
        _ => size_of(text),
    }
}
