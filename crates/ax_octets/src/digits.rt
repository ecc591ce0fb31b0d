//! Numbers written in decimal at a place of a buffer that has room.
ghost use Rattle.std.specs.Prelude.{◌≡◌, ◌+◌, ◌/◌, ◌%◌, ◌<◌, ◌≤◌, [], ◌∷◌, length, decimal};
ghost use Rattle.ax_octets.specs.Placed.{Placed, two_last, three_last};

use crate::place::{place_octet, place_text};
use itoa::Buffer;

/// The numbers from 0 to 99 in two digits each.
static PAIRS: [u8; 200] =
    *b"00010203040506070809101112131415161718192021222324252627282930313233343536373839404142434445464748495051525354555657585960616263646566676869707172737475767778798081828384858687888990919293949596979899";

/// Writes a number below 100 in two digits. The octet after them.
#[inline(always)]
fn place_pair(buffer: &mut [u8], at: usize, number: u32) -> usize
    requires { (at + 2 ≤ length buffer.old) × (number < 100) }
    ensures { Placed buffer.old buffer.new at (two_last number) result }
{
    let from = 2 * number as usize;
    let at = place_octet(buffer, at, PAIRS[from]);
    place_octet(buffer, at, PAIRS[from + 1])
}

/// Writes the three last digits of a number. The octet after them.
#[inline(always)]
fn place_three(buffer: &mut [u8], at: usize, number: u32) -> usize
    requires { (at + 3 ≤ length buffer.old) × (number < 1000) }
    ensures { Placed buffer.old buffer.new at (three_last number) result }
{
    let at = place_octet(buffer, at, b'0' + (number / 100) as u8);
    place_pair(buffer, at, number % 100)
}

/// Writes the hundreds of a number, which are kept only where there are any: so no branch depends on it. The octet after them.
#[inline(always)]
fn place_hundreds(buffer: &mut [u8], at: usize, number: u32) -> usize
    requires { (at < length buffer.old) × (number < 1000) }
    ensures none { number < 100 → Placed buffer.old buffer.new at [] result }
    ensures some { 100 ≤ number → Placed buffer.old buffer.new at ((48 + number / 100) ∷ []) result }
{
    let end = place_octet(buffer, at, b'0' + (number / 100) as u8);
    if number < 100 { at } else { end }
}

/// Writes a number of at most three digits. The octet after it.
#[inline(always)]
fn place_short(buffer: &mut [u8], at: usize, number: u32) -> usize
    requires { (at + 3 ≤ length buffer.old) × (number < 1000) }
    ensures digits { Placed buffer.old buffer.new at (decimal number) result }
    ensures few { result ≤ at + 3 }
{
    if number < 10 {
        return place_octet(buffer, at, b'0' + number as u8);
    }
    let at = place_hundreds(buffer, at, number);
    place_pair(buffer, at, number % 100)
}

/// Writes a number of four to six digits. The octet after it.
#[inline(always)]
fn place_middle(buffer: &mut [u8], at: usize, number: u32) -> usize
    requires { (at + 6 ≤ length buffer.old) × (1000 ≤ number) × (number < 1000000) }
    ensures digits { Placed buffer.old buffer.new at (decimal number) result }
    ensures few { result ≤ at + 6 }
{
    let end = place_short(buffer, at, number / 1000);
    place_three(buffer, end, number % 1000)
}

/// Writes a number of more than three digits. The octet after it.
#[inline(never)]
fn place_long(buffer: &mut [u8], at: usize, number: u64) -> usize
    requires { (at + 20 ≤ length buffer.old) × (1000 ≤ number) }
    ensures digits { Placed buffer.old buffer.new at (decimal number) result }
    ensures few { result ≤ at + 20 }
{
    if number < 1_000_000 {
        return place_middle(buffer, at, number as u32);
    }
    if number < 1_000_000_000 {
        let thousands = number as u32 / 1000;
        let end = place_middle(buffer, at, thousands);
        return place_three(buffer, end, number as u32 % 1000);
    }
    let mut digits = Buffer::new();
    place_text(buffer, at, digits.format(number).as_bytes())
}

/// Writes a number in decimal. Most have at most three digits. The octet after it.
#[inline(always)]
pub(crate) fn place_decimal(buffer: &mut [u8], at: usize, number: u64) -> usize
    requires { at + 20 ≤ length buffer.old }
    ensures digits { Placed buffer.old buffer.new at (decimal number) result }
    ensures few { result ≤ at + 20 }
{
    if number < 1000 {
        place_short(buffer, at, number as u32)
    } else {
        place_long(buffer, at, number)
    }
}
