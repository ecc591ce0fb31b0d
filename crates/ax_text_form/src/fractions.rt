//! Fractions in lowest terms.
ghost use Rattle.std.specs.Prelude.{◌≡◌, ◌/◌, ◌^◌, ◌<◌, IfSome};
ghost use Rattle.ax_text_form.specs.Remarks.{common_divisor};
ghost use Rattle.std.specs.Int.{IsGcd};

/// The greatest number that divides both, by Euclid's algorithm.
#[tactic(auto, using(crate::proofs::Divisors::divisors))]
fn gcd(a: u64, b: u64) -> u64
    ensures { IsGcd a b result }
{
    let mut a = a;
    let mut b = b;
    while b != 0 {
        let rest = a % b;
        a = b;
        b = rest;
    }
    a
}

/// The greatest number up to the denominator that divides both. A numerator of more than 64 bits is first made less than
/// the denominator, so that all other steps are on 64 bits.
#[tactic(auto, using(crate::proofs::Divisors::greatest))]
pub(crate) fn common_divisor(numerator: u128, denominator: u64) -> u64
    requires { 0 < denominator }
    ensures value { result ≡ common_divisor denominator numerator denominator }
    ensures some { 0 < result }
{
    if numerator <= u128::from(u64::MAX) {
        gcd(numerator as u64, denominator)
    } else {
        gcd(denominator, (numerator % denominator as u128) as u64)
    }
}

/// Where the denominator is a power of two, so is the greatest number that divides both: 2 to the power of the result. None
/// comes for any other denominator, and says nothing of what divides both.
#[inline(always)]
pub(crate) fn shared_twos(numerator: u64, denominator: u64) -> Option<u32>
    requires { 0 < denominator }
    ensures { IfSome result (λ twos. (twos < 64) × (2 ^ twos ≡ common_divisor denominator numerator denominator)) }
{
    let most = denominator.trailing_zeros();
    if denominator >> most != 1 {
        return None;
    }
    let twos = numerator.trailing_zeros();
    if twos < most { Some(twos) } else { Some(most) }
}

/// The quotient, on 64 bits where the number has no more.
pub(crate) fn quotient(number: u128, divisor: u64) -> u128
    requires { 0 < divisor }
    ensures { result ≡ number / divisor }
{
    if number <= u128::from(u64::MAX) {
        u128::from(number as u64 / divisor)
    } else {
        number / u128::from(divisor)
    }
}
