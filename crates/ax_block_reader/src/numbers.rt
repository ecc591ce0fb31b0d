//! Numbers in decimal.
ghost use Rattle.std.specs.Prelude.{◌≡◌, ◌↔◌, ◌+◌, ◌<◌, ◌≤◌, ◌^◌, ◌∷◌, ◌++◌, [], ℕ, length, decimal, IsTrue, MatchOption, IfOk, OnOk};
ghost use Rattle.ax_tokens.specs.Stopping.{Reads, One};
ghost use Rattle.ax_block_reader.specs.Languages.{IsNumberText, IsNoNumber};

use ax_format::digit_of;
use ax_tokens::{Reader, Stopped};
use itoa::Buffer;

/// The most digits of which each number fits 64 bits.
const SHORT: usize = 19;

/// Whether this is the number in decimal.
fn is_text_of(text: &[u8], number: u128) -> bool
    ensures { IsTrue result ↔ (text.now ≡ decimal number) }
{
    let mut buffer = Buffer::new();
    buffer.format(number).as_bytes() == text
}

/// The number that a digit from 1 to 9 and the octets after it are in decimal. None comes exactly where an octet is no
/// digit.
#[tactic(auto, using(crate::proofs::ShortNumbers::digits))]
fn number_after(digit: u8, octets: &[u8]) -> Option<u64>
    requires digit { (0 < digit) × (digit < 10) }
    requires few { length octets.now ≤ 18 }
    ensures { MatchOption result (IsNoNumber ((48 + digit) ∷ octets.now)) (λ n. (48 + digit) ∷ octets.now ≡ decimal n) }
{
    let mut number = u64::from(digit);
    for octet in octets {
        let Some(digit) = digit_of(*octet) else {
            return None;
        };
        number = 10 * number + u64::from(digit);
    }
    Some(number)
}

/// The number that at most 19 octets are in decimal, without leading zeros. None comes exactly where they are the text of
/// none.
#[tactic(auto, using(crate::proofs::ShortNumbers::short))]
pub fn short_number(text: &[u8]) -> Option<u64>
    requires { length text.now ≤ 19 }
    ensures { MatchOption result (IsNoNumber text.now) (λ n. text.now ≡ decimal n) }
{
    match text.split_first() {
        None => None,
        Some((first, later)) => match digit_of(*first) {
            None => None,
            Some(0) if !later.is_empty() => None,
            Some(0) => Some(0),
            Some(digit) => number_after(digit, later),
        },
    }
}

/// The number that a text of any length is in decimal, without leading zeros. None comes exactly where it is the text of
/// none below 2^128.
#[tactic(auto, using(crate::proofs::Decimals::numbers))]
fn long_number(text: &[u8]) -> Option<u128>
    ensures { MatchOption result (IsNoNumber text.now) (λ n. text.now ≡ decimal n) }
{
    let Ok(written) = str::from_utf8(text) else {
        return None;
    };
    let Ok(number) = written.parse::<u128>() else {
        return None;
    };
    if !is_text_of(text, number) {
        return None;
    }
    Some(number)
}

/// The number that the text is in decimal, without leading zeros. None comes exactly where it is the text of none
/// below 2^128.
fn number_of(text: &[u8]) -> Option<u128>
    ensures { MatchOption result (IsNoNumber text.now) (λ n. text.now ≡ decimal n) }
{
    if text.len() > SHORT {
        return long_number(text);
    }
    let number = short_number(text)?;
    Some(u128::from(number))
}

/// Whether the number has at most that many bits.
fn is_below(number: u128, width: u32) -> bool
    ensures { IsTrue result ↔ number < 2 ^ width }
{
    if width >= 128 {
        return true;
    }
    number < 1u128 << width
}

/// A number of that many bits, at most 128.
#[tactic(auto, using(crate::proofs::Decimals::reading))]
pub(crate) fn number(reader: &mut Reader<'_, '_>, width: u32) -> Result<u128, Stopped>
    requires { width ≤ 128 }
    ensures reads { Reads (λ n. decimal n ∷ []) (One (IsNumberText width)) result reader.old reader.new }
    ensures moves { OnOk result (length reader.new < length reader.old) }
    ensures below { IfOk result (λ n. n < 2 ^ width) }
{
    let token = reader.peek()?;
    let Some(number) = number_of(token.text) else {
        return Err(Stopped::Bad);
    };
    if !is_below(number, width) {
        return Err(Stopped::Bad);
    }
    reader.skip();
    Ok(number)
}
