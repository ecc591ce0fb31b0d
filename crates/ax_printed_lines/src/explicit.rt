//! Explicit items: octets as a text in quotes.
ghost use Rattle.std.specs.Prelude.{◌≡◌, ◌+◌, ◌<◌, ◌≤◌, ◌∷◌, ◌++◌, [], ℕ, List, length, IfSome};
ghost use Rattle.hex.specs.Hex.{encode_lower};
ghost use Rattle.ax_bits.specs.Bits.{bits, AreOctets};
ghost use Rattle.ax_format.specs.Canonical.{canon};
ghost use Rattle.ax_format.specs.Shape.{Shape};
ghost use Rattle.ax_format.specs.Tree.{explicit};
ghost use Rattle.ax_text_form.specs.ValueText.{kind_onto};
ghost use Rattle.ax_printed_lines.specs.Printed.{IsBuilt, AreDigits, digit_text};

use crate::cursor::Cursor;
use crate::laid::LaidBits;

/// The number of a lower-case hexadecimal digit.
fn digit_of(octet: u8) -> Option<u8>
    ensures { IfSome result (λ digit. (digit < 16) × (octet ≡ digit_text digit)) }
{
    if octet >= b'0' && octet <= b'9' {
        return Some(octet - b'0');
    }
    if octet >= b'a' && octet <= b'f' {
        return Some(octet - b'a' + 10);
    }
    None
}

/// The octet of two digits.
fn octet_of(high: u8, low: u8) -> Option<u8>
    ensures { IfSome result (λ octet. (octet < 256) × (high ∷ low ∷ [] ≡ encode_lower (octet ∷ []))) }
{
    let high = digit_of(high)?;
    let low = digit_of(low)?;
    Some(16 * high + low)
}

/// The octets whose digits these are are laid. None comes where they are the digits of none, or there is no room.
fn octets_built(digits: &[u8], out: &mut LaidBits<'_>) -> Option<()>
    ensures { IfSome result (λ done. AreDigits digits.now out.old out.new) }
{
    let mut left = digits;
    while let Some((high, following)) = left.split_first() {
        let (low, later) = following.split_first()?;
        let octet = octet_of(*high, *low)?;
        out.push(u64::from(octet), 8)?;
        left = later;
    }
    Some(())
}

/// The content of an explicit item that comes is read, and its length octet and its octets are laid.
pub fn explicit_built(cursor: &mut Cursor<'_>, out: &mut LaidBits<'_>) -> Option<()>
    ensures { IfSome result (λ done. IsBuilt (Shape explicit) (λ v. kind_onto explicit v []) (canon explicit) cursor.old cursor.new out.old out.new) }
{
    let digits = cursor.quoted()?;
    let count = digits.len() / 2;
    if count > 254 {
        return None;
    }
    out.push(count as u64 + 1, 8)?;
    octets_built(digits, out)
}
