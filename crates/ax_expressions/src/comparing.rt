//! Comparisons of numbers. Nothing here takes memory.
ghost use Rattle.std.specs.Prelude.{◌≡◌, ◌↔◌, ◌<◌, ◌^◌, pos, IsTrue};
ghost use Rattle.ax_bits.specs.Bits.{signed};
ghost use Rattle.ax_expressions.specs.Meaning.{compares, number_of};

use crate::expr::Op;
use ax_bits::signed_of;

/// Whether one number compares so with another.
#[inline(always)]
fn compares(op: Op, number: i128, other: i128) -> bool
    ensures { result ≡ compares op number other }
{
    match op {
        Op::Equal => number == other,
        Op::Unequal => number != other,
        Op::Less => number < other,
        Op::LessOrEqual => number <= other,
        Op::Greater => number > other,
        Op::GreaterOrEqual => number >= other,
    }
}

/// The same of a number without a sign, which may be above each one with a sign.
#[inline(always)]
fn compares_unsigned(op: Op, number: u128, other: i128) -> bool
    ensures { result ≡ compares op (pos number) other }
{
    if number > i128::MAX as u128 {
        return matches!(op, Op::Unequal | Op::Greater | Op::GreaterOrEqual);
    }
    compares(op, number as i128, other)
}

/// Whether the value has at most that many bits.
#[tactic(auto, using(crate::proofs::Signs::all_within))]
fn is_within(value: u128, width: u32) -> bool
    ensures { IsTrue result ↔ value < 2 ^ width }
{
    if width >= 128 {
        return true;
    }
    value < 1u128 << width
}

/// The same of the number that `width` bits of the value spell in two's complement. No element has 0 bits or more than
/// 128, and no value in a record has more bits than its element: those cases are here so that the answer is exact for
/// each width and value.
#[tactic(auto, using(crate::proofs::Signs::signs))]
fn compares_signed(op: Op, value: u128, width: u32, other: i128) -> bool
    ensures { result ≡ compares op (signed width value) other }
{
    if width > 128 {
        return compares_unsigned(op, value, other);
    }
    if width == 0 {
        return compares_unsigned(op, value.saturating_sub(1), other);
    }
    if is_within(value, width) {
        return compares(op, signed_of(value, width), other);
    }
    compares_unsigned(op, value - (1u128 << width), other)
}

/// Whether the number that an element's bits spell compares so with another.
#[inline(always)]
pub fn compares_as(op: Op, value: u128, signed: bool, width: u32, other: i128) -> bool
    ensures { result ≡ compares op (number_of signed width value) other }
{
    if signed {
        compares_signed(op, value, width, other)
    } else {
        compares_unsigned(op, value, other)
    }
}
