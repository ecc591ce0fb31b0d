//! A number under one scale as a number under another.
ghost use Rattle.std.specs.Prelude.{◌≡◌, ℕ, ◌*◌, ◌^◌, ◌<◌, ◌≤◌, pos, IfSome, IfNone, OnSome, unsigned_abs};
ghost use Rattle.ax_format.specs.Signs.{by_sign};
ghost use Rattle.ax_rescale.specs.Rescaled.{IsConverted, IsSpelled, with_sign_of};

use crate::divisor::gcd;
use ax_bits::signed_of;
use ax_format::{Scale, Sign};

/// What so many bits that spell the number mean by their sign.
fn meant(value: u128, width: u32, sign: Sign) -> i128
    requires width { (1 ≤ width) × (width ≤ 64) }
    requires fits { value < 2 ^ width }
    ensures value { result ≡ by_sign sign width value }
    ensures size { unsigned_abs result < 2 ^ 64 }
{
    match sign {
        Sign::Unsigned => value as i128,
        Sign::Signed => signed_of(value, width),
    }
}

/// The number of so many bits that means this by its sign; None where there is none.
fn spelled(meant: i128, width: u32, sign: Sign) -> Option<u128>
    requires width { (1 ≤ width) × (width ≤ 64) }
    ensures some { IfSome result (IsSpelled sign width meant) }
    ensures none { IfNone result ((m : ℕ) → IsSpelled sign width meant m → ⊥) }
{
    let bound = power_of_two(width);
    match sign {
        Sign::Unsigned => {
            if 0 <= meant && meant < bound {
                Some(meant as u128)
            } else {
                None
            }
        }
        Sign::Signed => {
            let half = power_of_two(width - 1);
            if meant < -half || half <= meant {
                None
            } else if meant < 0 {
                Some((meant + bound) as u128)
            } else {
                Some(meant as u128)
            }
        }
    }
}

/// The number of which the divisor times is so many times the factor, if there is one of at most 64 bits. Only quotients are
/// multiplied once the two have no common divisor, so that 128 bits suffice.
#[tactic(auto, using(crate::proofs::Quotients::quotients))]
fn exact(size: u128, factor: u128, divisor: u128) -> Option<u128>
    requires some { (0 < factor) × (0 < divisor) }
    ensures some { IfSome result (λ s. s * divisor ≡ size * factor) }
    ensures none { IfNone result ((s : ℕ) → s < 2 ^ 128 → s * divisor ≡ size * factor → ⊥) }
{
    let common = gcd(factor, divisor);
    let divisor = divisor / common;
    if size % divisor != 0 {
        return None;
    }
    (size / divisor).checked_mul(factor / common)
}

/// The size with the sign of another number; None where it passes 64 bits.
fn signed_as(size: u128, other: i128) -> Option<i128>
    ensures some { IfSome result (λ z. z ≡ with_sign_of other size) }
    ensures none { IfNone result (2 ^ 64 < size) }
    ensures within { OnSome result (size ≤ 2 ^ 64) }
{
    if size > 1 << 64 {
        return None;
    }
    if other < 0 {
        Some(-(size as i128))
    } else {
        Some(size as i128)
    }
}

/// A product on 128 bits.
fn product(a: u64, b: u64) -> u128
    ensures { result ≡ a * b }
{
    u128::from(a) * u128::from(b)
}

/// The number that stands for as much under the new scale as this number does under the old one. None comes exactly where there
/// is none of the new width. It takes no memory.
#[tactic(auto, using(crate::proofs::Conversions::conversions))]
pub fn convert_number(
    value: u128,
    old_width: u32,
    old: &Scale,
    new_width: u32,
    new: &Scale,
) -> Option<u128>
    requires old_width { (1 ≤ old_width) × (old_width ≤ 64) }
    requires new_width { (1 ≤ new_width) × (new_width ≤ 64) }
    requires fits { value < 2 ^ old_width }
    requires old_scale { (0 < old.now.num) × (0 < old.now.den) }
    requires new_scale { (0 < new.now.num) × (0 < new.now.den) }
    ensures some { IfSome result (IsConverted old_width old.now value new_width new.now) }
    ensures none { IfNone result ((m : ℕ) → IsConverted old_width old.now value new_width new.now m → ⊥) }
{
    let meant = meant(value, old_width, old.sign);
    let factor = product(old.num, new.den);
    let divisor = product(new.num, old.den);
    let Some(size) = exact(meant.unsigned_abs(), factor, divisor) else {
        return None;
    };
    let Some(made) = signed_as(size, meant) else {
        return None;
    };
    spelled(made, new_width, new.sign)
}

fn power_of_two(exponent: u32) -> i128
    requires { exponent ≤ 64 }
    ensures { result ≡ pos (2 ^ exponent) }
{
    1 << exponent
}
