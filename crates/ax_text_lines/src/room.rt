//! Octets put into room that is there, each run at its place.
ghost use Rattle.std.specs.Prelude.{◌≡◌, [], ◌∷◌, ◌++◌, ◌+◌, ◌-◌, ◌<◌, ◌≤◌, length, take, drop, decimal};
ghost use Rattle.ax_text_lines.specs.Prints.{three_last};

use crate::three_digits::THREE_DIGITS;
use ax_format::Name;
use itoa::Buffer;
use std::simd::Simd;

/// Puts an octet.
#[inline(always)]
pub(crate) fn put_octet(room: &mut [u8], at: usize, octet: u8)
    requires { at < length room.old }
    ensures front { take (at + 1) room.new ≡ take at room.old ++ octet ∷ [] }
    ensures whole { length room.new ≡ length room.old }
{
    room[at] = octet;
}

/// Puts octets, the first at place `at`.
#[inline(always)]
pub(crate) fn put_octets(room: &mut [u8], at: usize, octets: &[u8])
    requires { at + length octets.now ≤ length room.old }
    ensures front { take (at + length octets.now) room.new ≡ take at room.old ++ octets.now }
    ensures whole { length room.new ≡ length room.old }
{
    room[at..at + octets.len()].copy_from_slice(octets);
}

/// Puts the first N octets by one load and one store.
#[inline(always)]
fn put_first<const N: usize>(room: &mut [u8], at: usize, octets: &[u8])
    requires { (N ≤ length octets.now) × (at + N ≤ length room.old) }
    ensures front { take (at + N) room.new ≡ take at room.old ++ take N octets.now }
    ensures whole { length room.new ≡ length room.old }
{
    Simd::<u8, N>::from_slice(octets).copy_to_slice(&mut room[at..]);
}

/// Puts a space and a name. The result is the place after it. All that can be of the name is copied at once.
#[inline(always)]
pub(crate) fn put_name(room: &mut [u8], at: usize, name: &Name) -> usize
    requires { at + 17 ≤ length room.old }
    ensures front { take result room.new ≡ take at room.old ++ 0x20 ∷ name.now }
    ensures within { result ≤ length room.new }
{
    put_octet(room, at, b' ');
    put_first::<16>(room, at + 1, name.padded());
    at + 1 + name.octets().len()
}

/// Puts the first `count` of N octets. The result is the place after them. All N are copied at once.
#[inline(always)]
pub(crate) fn put_some<const N: usize>(
    room: &mut [u8],
    at: usize,
    octets: &[u8],
    count: usize,
) -> usize
    requires room { at + N ≤ length room.old }
    requires count { (N ≤ length octets.now) × (count ≤ N) }
    ensures front { take result room.new ≡ take at room.old ++ take count octets.now }
    ensures place { result ≡ at + count }
    ensures whole { length room.new ≡ length room.old }
{
    put_first::<N>(room, at, octets);
    at + count
}

/// Puts a number below 1000 in three digits. The result is the place after them. A fourth octet is copied with them.
#[inline(always)]
fn put_three(room: &mut [u8], at: usize, number: u32) -> usize
    requires { (at + 4 ≤ length room.old) × (number < 1000) }
    ensures front { take result room.new ≡ take at room.old ++ three_last number }
    ensures place { result ≡ at + 3 }
    ensures whole { length room.new ≡ length room.old }
{
    let digits = &THREE_DIGITS[3 * number as usize..];
    put_some::<4>(room, at, digits, 3)
}

/// How many digits a number below 1000 has: the last ones of its three.
#[inline(always)]
#[tactic(auto, using(crate::proofs::Digits::counts))]
fn digit_count(number: u32) -> usize
    requires { number < 1000 }
    ensures few { (1 ≤ result) × (result ≤ 3) }
    ensures last { drop (3 - result) (three_last number) ≡ decimal number }
{
    if number < 10 {
        return 1;
    }
    if number < 100 { 2 } else { 3 }
}

/// Puts a number of one digit. The result is the place after it.
#[inline(always)]
#[tactic(auto, using(crate::proofs::Digits::ones))]
pub(crate) fn put_one(room: &mut [u8], at: usize, number: u32) -> usize
    requires { (at < length room.old) × (number < 10) }
    ensures front { take result room.new ≡ take at room.old ++ decimal number }
    ensures within { result ≤ at + 1 }
    ensures whole { length room.new ≡ length room.old }
{
    put_octet(room, at, b'0' + number as u8);
    at + 1
}

/// Puts a number of at most three digits. The result is the place after it. Octets after its digits are copied with them, so no
/// branch depends on how many it has.
#[inline(always)]
fn put_short(room: &mut [u8], at: usize, number: u32) -> usize
    requires { (at + 4 ≤ length room.old) × (number < 1000) }
    ensures front { take result room.new ≡ take at room.old ++ decimal number }
    ensures within { result ≤ at + 3 }
    ensures whole { length room.new ≡ length room.old }
{
    let count = digit_count(number);
    let digits = &THREE_DIGITS[3 * number as usize + 3 - count..];
    put_some::<4>(room, at, digits, count)
}

/// Puts a number of at most six digits. The result is the place after it.
#[inline(always)]
#[tactic(auto, using(crate::proofs::Digits::thousands))]
fn put_six(room: &mut [u8], at: usize, number: u32) -> usize
    requires { (at + 7 ≤ length room.old) × (number < 1000000) }
    ensures front { take result room.new ≡ take at room.old ++ decimal number }
    ensures within { result ≤ at + 6 }
    ensures whole { length room.new ≡ length room.old }
{
    if number < 1000 {
        return put_short(room, at, number);
    }
    let end = put_short(room, at, number / 1000);
    put_three(room, end, number % 1000)
}

/// Puts a number of at most nine digits. The result is the place after it.
#[inline(always)]
#[tactic(auto, using(crate::proofs::Digits::thousands))]
fn put_nine(room: &mut [u8], at: usize, number: u32) -> usize
    requires { (at + 10 ≤ length room.old) × (number < 1000000000) }
    ensures front { take result room.new ≡ take at room.old ++ decimal number }
    ensures within { result ≤ at + 9 }
    ensures whole { length room.new ≡ length room.old }
{
    if number < 1_000_000 {
        return put_six(room, at, number);
    }
    let end = put_six(room, at, number / 1000);
    put_three(room, end, number % 1000)
}

/// Puts a number of ten to eighteen digits. The result is the place after it.
#[inline(always)]
#[tactic(auto, using(crate::proofs::Digits::eighteen))]
fn put_eighteen(room: &mut [u8], at: usize, number: u64) -> usize
    requires { (at + 19 ≤ length room.old) × (1000000000 ≤ number) × (number < 1000000000000000000) }
    ensures front { take result room.new ≡ take at room.old ++ decimal number }
    ensures within { result ≤ at + 18 }
    ensures whole { length room.new ≡ length room.old }
{
    let end = put_nine(room, at, (number / 1_000_000_000) as u32);
    let nine = (number % 1_000_000_000) as u32;
    let end = put_three(room, end, nine / 1_000_000);
    let end = put_three(room, end, nine / 1000 % 1000);
    put_three(room, end, nine % 1000)
}

/// Puts a number of any length. The result is the place after it.
#[cold]
#[inline(never)]
pub(crate) fn put_longest(room: &mut [u8], at: usize, number: u128) -> usize
    requires { at + 40 ≤ length room.old }
    ensures front { take result room.new ≡ take at room.old ++ decimal number }
    ensures within { result ≤ at + 40 }
    ensures whole { length room.new ≡ length room.old }
{
    let mut buffer = Buffer::new();
    let digits = buffer.format(number).as_bytes();
    put_octets(room, at, digits);
    at + digits.len()
}

/// Puts a number of more than six digits. The result is the place after it.
#[inline(never)]
fn put_long(room: &mut [u8], at: usize, number: u64) -> usize
    requires { at + 40 ≤ length room.old }
    ensures front { take result room.new ≡ take at room.old ++ decimal number }
    ensures within { result ≤ at + 40 }
    ensures whole { length room.new ≡ length room.old }
{
    if number < 1_000_000_000 {
        return put_nine(room, at, number as u32);
    }
    if number >= 1_000_000_000_000_000_000 {
        return put_longest(room, at, number as u128);
    }
    put_eighteen(room, at, number)
}

/// Puts a number in decimal. Most have at most three digits, and few more than six.
#[inline(always)]
pub(crate) fn put_decimal(room: &mut [u8], at: usize, number: u64) -> usize
    requires { at + 40 ≤ length room.old }
    ensures front { take result room.new ≡ take at room.old ++ decimal number }
    ensures within { result ≤ at + 40 }
    ensures whole { length room.new ≡ length room.old }
{
    if number >= 1_000_000 {
        return put_long(room, at, number);
    }
    put_six(room, at, number as u32)
}

/// Puts a space and a number in decimal. The result is the place after it.
#[inline(always)]
pub(crate) fn put_number(room: &mut [u8], at: usize, number: u64) -> usize
    requires { at + 41 ≤ length room.old }
    ensures front { take result room.new ≡ take at room.old ++ 0x20 ∷ decimal number }
    ensures within { result ≤ length room.new }
{
    put_octet(room, at, b' ');
    put_decimal(room, at + 1, number)
}
