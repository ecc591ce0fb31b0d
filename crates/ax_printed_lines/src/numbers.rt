//! Numbers in decimal at the front of octets.
ghost use Rattle.std.specs.Prelude.{◌≡◌, ◌<◌, ◌≤◌, ◌^◌, ◌++◌, length, drop, get_or, decimal, IfSome};
ghost use Rattle.ax_tokens.specs.declared.token.TokenKind.TheVariants.{Word};
ghost use Rattle.ax_printed_lines.specs.Digits.{DigitsRead};
ghost use Rattle.ax_printed_lines.specs.Printed.{Stands};

use crate::gaps::after_space;

/// A number of so many digits is below 2^64, whatever they are.
const MOST_DIGITS: usize = 19;

/// A number of at most 56 bits has so many digits or fewer.
const RUN_DIGITS: usize = 17;

/// Most numbers have fewer digits. The compiler makes straight code of a loop with so few rounds.
const FEW_DIGITS: usize = 8;

/// The number of the digits in front, that many at most, and how many they are, where the first `count` of them are known and their
/// number.
#[inline(always)]
fn more_digits(octets: &[u8], number: u64, count: usize, most: usize) -> (u64, usize)
    requires within { (count ≤ most) × (most ≤ length octets.now) × (most ≤ 19) }
    requires known { DigitsRead octets.now count number }
    ensures read { DigitsRead octets.now result.1 result.0 }
    ensures few { result.1 ≤ most }
{
    let mut number = number;
    let mut count = count;
    while count < most && octets[count] >= b'0' && octets[count] <= b'9' {
        // The octet of a zero is 48.
        number = 10 * number + (u64::from(octets[count]) - 48);
        count += 1;
    }
    (number, count)
}

/// The number of the digits in front, at most 19, and how many they are.
#[inline(always)]
#[tactic(auto, using(crate::proofs::Digits::reading))]
fn leading_digits(octets: &[u8]) -> (u64, usize)
    ensures digits { 0 < result.1 → (1 < result.1 → 49 ≤ get_or octets.now 0 0) → octets.now ≡ decimal result.0 ++ drop result.1 octets.now }
    ensures first { 0 < result.1 → 48 ≤ get_or octets.now 0 0 }
    ensures few { result.1 ≤ length octets.now }
    ensures below { result.0 < 2 ^ 64 }
{
    if octets.len() < FEW_DIGITS {
        return more_digits(octets, 0, 0, octets.len());
    }
    let (number, count) = more_digits(octets, 0, 0, FEW_DIGITS);
    if count < FEW_DIGITS {
        return (number, count);
    }
    more_digits(octets, number, count, octets.len().min(MOST_DIGITS))
}

/// The number that stands in front, in at most 19 digits, and how many they are. They are 0 where there is no digit, and where the first of
/// several is 0. A loop in the place of the call would take registers from what reads one digit. Two numbers are answered in registers; with
/// what comes after the digits they wouldn't be.
#[inline(never)]
fn counted_number(octets: &[u8]) -> (u64, usize)
    ensures digits { 0 < result.1 → octets.now ≡ decimal result.0 ++ drop result.1 octets.now }
    ensures few { result.1 ≤ length octets.now }
    ensures below { result.0 < 2 ^ 64 }
{
    let (number, count) = leading_digits(octets);
    if count > 1 && octets[0] == b'0' {
        return (0, 0);
    }
    (number, count)
}

/// The number that stands in front, in at most 19 digits, and what comes after these. None comes where there is no digit, and where the
/// first of several is 0.
#[inline(always)]
pub fn number_in_front(octets: &[u8]) -> Option<(u64, &[u8])>
    ensures digits { IfSome result (λ found. octets.now ≡ decimal found.0 ++ found.1.now) }
    ensures below { IfSome result (λ found. found.0 < 2 ^ 64) }
{
    let (number, count) = counted_number(octets);
    if count == 0 {
        return None;
    }
    Some((number, &octets[count..]))
}

/// The number of one digit in front, as most are, and what comes after one space behind it, where a token follows.
#[inline(always)]
fn spaced_digit(octets: &[u8]) -> Option<(u64, &[u8])>
    ensures number { IfSome result (λ found. Stands Word (decimal found.0) octets.now found.1.now) }
    ensures below { IfSome result (λ found. found.0 < 2 ^ 64) }
{
    if octets.len() < 3 || octets[1] != b' ' || octets[2] <= b' ' {
        return None;
    }
    let digit = octets[0];
    if digit < b'0' || digit > b'9' {
        return None;
    }
    Some((u64::from(digit - b'0'), &octets[2..]))
}

/// The number of at most 19 digits in front, and what comes after one space behind it, where a token follows, as mostly behind numbers.
/// None comes for any other.
#[inline(always)]
pub fn spaced_number(octets: &[u8]) -> Option<(u64, &[u8])>
    ensures number { IfSome result (λ found. Stands Word (decimal found.0) octets.now found.1.now) }
    ensures below { IfSome result (λ found. found.0 < 2 ^ 64) }
{
    if let Some(found) = spaced_digit(octets) {
        return Some(found);
    }
    longer_number(octets)
}

// The same, whatever the number of digits.
#[inline(always)]
fn longer_number(octets: &[u8]) -> Option<(u64, &[u8])>
    ensures number { IfSome result (λ found. Stands Word (decimal found.0) octets.now found.1.now) }
    ensures below { IfSome result (λ found. found.0 < 2 ^ 64) }
{
    let (number, following) = number_in_front(octets)?;
    let left = after_space(following)?;
    Some((number, left))
}

/// The number of the digits in front, at most 17, and how many they are.
#[inline(always)]
#[tactic(auto, using(crate::proofs::Digits::reading))]
fn run_digits(octets: &[u8]) -> (u64, usize)
    requires { 17 ≤ length octets.now }
    ensures digits { 0 < result.1 → (1 < result.1 → 49 ≤ get_or octets.now 0 0) → octets.now ≡ decimal result.0 ++ drop result.1 octets.now }
    ensures first { 0 < result.1 → 48 ≤ get_or octets.now 0 0 }
    ensures few { result.1 ≤ length octets.now }
    ensures below { result.0 < 2 ^ 64 }
{
    more_digits(octets, 0, 0, RUN_DIGITS)
}

/// The number in front, of at most 17 digits, and what comes after it. None comes where there is no digit, and where the first of
/// several is 0.
#[inline(always)]
pub fn run_number(octets: &[u8]) -> Option<(u64, &[u8])>
    requires { 17 ≤ length octets.now }
    ensures digits { IfSome result (λ found. octets.now ≡ decimal found.0 ++ found.1.now) }
{
    let (number, count) = run_digits(octets);
    if count == 0 || count > 1 && octets[0] == b'0' {
        return None;
    }
    Some((number, &octets[count..]))
}
