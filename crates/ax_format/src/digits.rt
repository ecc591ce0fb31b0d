//! Decimal digits, and a category in three of them.
ghost use Rattle.std.specs.Prelude.{◌≡◌, ◌+◌, ◌<◌, ◌⊎◌, ℕ, ◌∷◌, [], MatchOption};
ghost use Rattle.ax_format.specs.Paths.{three_digits};

/// The number of a digit. None comes exactly where the octet is none.
pub fn digit_of(octet: u8) -> Option<u8>
    ensures { MatchOption result ((octet < 48) ⊎ (57 < octet)) (λ digit. (octet ≡ 48 + digit) × digit < 10) }
{
    if octet < b'0' || octet > b'9' {
        return None;
    }
    Some(octet - b'0')
}

/// A category as its three decimal digits.
pub fn category_digits(category: u8) -> [u8; 3]
    ensures { result ≡ three_digits category }
{
    [
        b'0' + category / 100,
        b'0' + category / 10 % 10,
        b'0' + category % 10,
    ]
}

/// The category of three digits, 000 to 255. None comes exactly where the octets are none.
#[tactic(auto, using(crate::proofs::CategoryDigits::digits))]
pub fn category_of_digits(hundreds: u8, tens: u8, ones: u8) -> Option<u8>
    ensures { MatchOption result ((n : ℕ) → n < 256 → hundreds ∷ tens ∷ ones ∷ [] ≡ three_digits n → ⊥)
        (λ n. hundreds ∷ tens ∷ ones ∷ [] ≡ three_digits n) }
{
    let number = 100 * u16::from(digit_of(hundreds)?)
        + u16::from(10 * digit_of(tens)? + digit_of(ones)?);
    if number > 255 {
        return None;
    }
    Some(number as u8)
}
