//! Octets written at a place of a buffer that has room. A short text is two copies of a fixed size that overlap.
ghost use Rattle.std.specs.Prelude.{◌≡◌, ◌+◌, ◌<◌, ◌≤◌, [], ◌∷◌, length, take};
ghost use Rattle.ax_octets.specs.Placed.{Placed};

use std::simd::Simd;

#[inline(always)]
pub(crate) fn place_octet(buffer: &mut [u8], at: usize, octet: u8) -> usize
    requires { at < length buffer.old }
    ensures { Placed buffer.old buffer.new at (octet ∷ []) result }
{
    buffer[at] = octet;
    at + 1
}

// The first N octets are one load and one store.
#[inline(always)]
fn place_front<const N: usize>(buffer: &mut [u8], at: usize, text: &[u8]) -> usize
    requires { (N ≤ length text.now) × (at + N ≤ length buffer.old) }
    ensures { Placed buffer.old buffer.new at (take N text.now) result }
{
    Simd::<u8, N>::from_slice(text).copy_to_slice(&mut buffer[at..]);
    at + N
}

/// Copies the first `count` octets of a text over what stands from octet `at` on, by one copy of N: what is copied after them
/// is written over. The octet after them.
#[inline(always)]
pub(crate) fn place_some<const N: usize>(
    buffer: &mut [u8],
    at: usize,
    text: &[u8],
    count: usize,
) -> usize
    requires { (N ≤ length text.now) × (at + N ≤ length buffer.old) × (count ≤ N) }
    ensures { Placed buffer.old buffer.new at (take count text.now) result }
{
    place_front::<N>(buffer, at, text);
    at + count
}

// The first N octets and the last N.
#[inline(always)]
fn place_ends<const N: usize>(buffer: &mut [u8], at: usize, text: &[u8]) -> usize
    requires fits { at + length text.now ≤ length buffer.old }
    requires covers { (N ≤ length text.now) × (length text.now ≤ N + N) }
    ensures { Placed buffer.old buffer.new at text.now result }
{
    let last = text.len() - N;
    place_front::<N>(buffer, at, text);
    place_front::<N>(buffer, at + last, &text[last..])
}

#[inline(always)]
fn place_long(buffer: &mut [u8], at: usize, text: &[u8]) -> usize
    requires { (32 ≤ length text.now) × (at + length text.now ≤ length buffer.old) }
    ensures { Placed buffer.old buffer.new at text.now result }
{
    let mut done = 0;
    while text.len() - done > 64 {
        place_front::<32>(buffer, at + done, &text[done..]);
        done += 32;
    }
    place_ends::<32>(buffer, at + done, &text[done..])
}

/// Copies a text over what stands from octet `at` on. The octet after it.
#[inline(always)]
pub(crate) fn place_text(buffer: &mut [u8], at: usize, text: &[u8]) -> usize
    requires { at + length text.now ≤ length buffer.old }
    ensures { Placed buffer.old buffer.new at text.now result }
{
    let len = text.len();
    if len > 32 {
        place_long(buffer, at, text)
    } else if len >= 16 {
        place_ends::<16>(buffer, at, text)
    } else if len >= 8 {
        place_ends::<8>(buffer, at, text)
    } else if len >= 4 {
        place_ends::<4>(buffer, at, text)
    } else if len >= 2 {
        place_ends::<2>(buffer, at, text)
    } else if len == 1 {
        place_front::<1>(buffer, at, text)
    } else {
        at
    }
}
