//! The numbers of a trial.
ghost use Rattle.std.specs.Prelude.{◌≡◌, ◌↔◌, ◌<◌, ◌≤◌, ◌^◌, ℕ, decimal, IsTrue, MatchOption};

use itoa::Buffer;

/// The most blocks of a trial.
const MOST_BLOCKS: u64 = 1_000_000;

/// Whether this is the number in decimal.
fn is_text_of(word: &str, number: u64) -> bool
    ensures { IsTrue result ↔ (word.now ≡ decimal number) }
{
    let mut buffer = Buffer::new();
    buffer.format(number) == word
}

/// The number that the word is in decimal, without leading zeros. None comes exactly where it is that of none below
/// 2^64.
#[tactic(auto, using(crate::proofs::Numbers::numbers))]
pub(crate) fn seed_of(word: &str) -> Option<u64>
    ensures { MatchOption result ((n : ℕ) → n < 2 ^ 64 → word.now ≡ decimal n → ⊥) (λ n. word.now ≡ decimal n) }
{
    let Ok(number) = word.parse::<u64>() else {
        return None;
    };
    if !is_text_of(word, number) {
        return None;
    }
    Some(number)
}

/// The number of blocks that the word is in decimal, without leading zeros. None comes exactly where it is no number
/// from 0 to 1,000,000.
#[tactic(auto, using(crate::proofs::Numbers::numbers))]
pub(crate) fn count_of(word: &str) -> Option<u32>
    ensures { MatchOption result ((n : ℕ) → n ≤ 1000000 → word.now ≡ decimal n → ⊥) (λ n. (n ≤ 1000000) × (word.now ≡ decimal n)) }
{
    let number = seed_of(word)?;
    if number > MOST_BLOCKS {
        return None;
    }
    Some(number as u32)
}
