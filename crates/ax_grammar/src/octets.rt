//! Single tokens: what their octets stand for.

ghost use Rattle.std.specs.Prelude.{◌≡◌, ◌≤◌, ◌<◌, ◌^◌, length, true, IfSome};
ghost use Rattle.std.specs.Option.{option_map};
ghost use Rattle.std.specs.List.{list_all};
ghost use Rattle.ax_tokens.specs.PlainToken.{plain_token};
ghost use Rattle.ax_tokens.specs.Lexing.{HasTokenText};
ghost use Rattle.ax_grammar.specs.InRange.{IsText};
ghost use Rattle.ax_grammar.specs.Tests.{is_digit, number_after_digits, number_of, number_within, category_of, has_leading_zero, name_of, text_of};

use ax_format::Name;
use ax_tokens::{Token, TokenKind};

/// Whether each octet is a digit.
fn are_digits(text: &[u8]) -> bool
    ensures { result ≡ list_all is_digit text.now }
{
    text.iter().all(|octet| b'0' <= *octet && *octet <= b'9')
}

/// Whether the first of several octets is the digit 0.
fn has_leading_zero(text: &[u8]) -> bool
    ensures { result ≡ has_leading_zero text.now }
{
    matches!(text, [b'0', _, ..])
}

/// The number that at most 18 digits stand for.
fn value(digits: &[u8]) -> u64
    requires few { length digits.now ≤ 18 }
    requires digits { list_all is_digit digits.now ≡ true }
    ensures value { result ≡ number_after_digits 0 digits.now }
    ensures bound { result < 10 ^ length digits.now }
{
    let mut value: u64 = 0;
    for digit in digits {
        value = 10 * value + u64::from(*digit - b'0');
    }
    value
}

/// The decimal number without leading zeros, of at most that many digits. None comes exactly where the octets are
/// none.
#[tactic(auto, unfolding(crate::specs::Tests::number_of))]
pub fn number(text: &[u8], most: usize) -> Option<u64>
    requires { most ≤ 18 }
    ensures value { result ≡ number_of most text.now }
    ensures bound { IfSome result (λ n. n < 10 ^ most) }
{
    if text.is_empty() || text.len() > most || !are_digits(text) || has_leading_zero(text) {
        return None;
    }
    Some(value(text))
}

/// The decimal number from `least` to `most`, of at most 18 digits. None comes exactly where the octets are none.
#[tactic(auto, unfolding(crate::specs::Tests::number_within))]
pub fn number_within(text: &[u8], least: u64, most: u64) -> Option<u64>
    ensures value { result ≡ number_within least most text.now }
    ensures bounds { IfSome result (λ n. (least ≤ n) × (n ≤ most)) }
{
    match number(text, 18) {
        Some(number) if least <= number && number <= most => Some(number),
        _ => None,
    }
}

/// The same of at most nine digits.
pub fn width(text: &[u8]) -> Option<u32>
    ensures { result ≡ number_of 9 text.now }
{
    match number(text, 9) {
        Some(width) => Some(width as u32),
        None => None,
    }
}

/// The category of three digits, 000 to 255. None comes exactly where the octets are none.
#[tactic(auto, unfolding(crate::specs::Tests::category_of))]
pub fn category(text: &[u8]) -> Option<u8>
    ensures { result ≡ category_of text.now }
{
    if text.len() != 3 || !are_digits(text) {
        return None;
    }
    let category = value(text);
    if category > 255 {
        return None;
    }
    Some(category as u8)
}

/// The name that the octets are. None comes exactly where they are none.
pub fn name(text: &[u8]) -> Option<Name>
    ensures { result ≡ name_of text.now }
{
    Name::of(text)
}

/// What stands between the quotes of a Str. None comes exactly where the token is none, or where it has 2^32 octets
/// or more.
pub fn content<'t>(token: &Token<'t>) -> Option<&'t [u8]>
    requires { HasTokenText (plain_token token.now) }
    ensures content { option_map (λ content. content.now) result ≡ text_of token.now.text.now }
    ensures text { IfSome result (λ content. IsText content.now) }
{
    if token.kind != TokenKind::Str {
        return None;
    }
    let content = &token.text[1..token.text.len() - 1];
    if content.len() >= 0x1_0000_0000 {
        return None;
    }
    Some(content)
}
