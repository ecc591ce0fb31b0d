//! Numbers of at most 56 bits that stand at any bit of an octet string.

ghost use Rattle.std.specs.Prelude.{◌≡◌, ◌+◌, ◌*◌, ◌^◌, ◌<◌, ◌≤◌, length, take, drop};
ghost use Rattle.ax_bits.specs.Bits.{word, bits};

/// The number that `width` bits of `octets`, at most 56, spell from bit `at` on. Bit 0 is the most significant bit of the
/// first octet. Where eight octets are there, they are taken at once.
#[inline(always)]
pub fn short_bits_at(octets: &[u8], at: u32, width: u32) -> u64
    requires width { (1 ≤ width) × (width ≤ 56) }
    requires within { at + width ≤ 8 * length octets.now }
    ensures number { word width result ≡ take width (drop at (bits octets.now)) }
    ensures below { result < 2 ^ width }
{
    let first = (at / 8) as usize;
    if octets.len() < first + 8 {
        return short_bits_near_end(octets, at, width);
    }
    let number = u64::from_be_bytes([
        octets[first],
        octets[first + 1],
        octets[first + 2],
        octets[first + 3],
        octets[first + 4],
        octets[first + 5],
        octets[first + 6],
        octets[first + 7],
    ]);
    number >> (64 - at % 8 - width) & ((1 << width) - 1)
}

// The same where fewer than eight octets are there: those are joined in which the bits stand.
#[cold]
#[inline(never)]
fn short_bits_near_end(octets: &[u8], at: u32, width: u32) -> u64
    requires width { (1 ≤ width) × (width ≤ 56) }
    requires within { at + width ≤ 8 * length octets.now }
    ensures number { word width result ≡ take width (drop at (bits octets.now)) }
    ensures below { result < 2 ^ width }
{
    let first = (at / 8) as usize;
    let count = (at % 8 + width + 7) / 8;
    let number = joined(&octets[first..first + count as usize]);
    number >> (8 * count - at % 8 - width) & ((1 << width) - 1)
}

// The number that octets spell.
#[tactic(auto, using(crate::proofs::ShortNumbers::joins))]
fn joined(octets: &[u8]) -> u64
    requires { length octets.now ≤ 8 }
    ensures number { word (8 * length octets.now) result ≡ bits octets.now }
    ensures below { result < 2 ^ (8 * length octets.now) }
{
    let mut number: u64 = 0;
    for octet in octets {
        number = number << 8 | u64::from(*octet);
    }
    number
}
