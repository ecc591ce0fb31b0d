//! Numbers that stand at any bit of an octet string.

ghost use Rattle.std.specs.Prelude.{◌≡◌, ◌+◌, ◌*◌, ◌/◌, ◌%◌, ◌^◌, ◌<◌, ◌≤◌, ◌++◌, length, take, drop};
ghost use Rattle.ax_bits.specs.Bits.{word, bits, signed};

/// The number that `width` bits of `octets` spell, from bit `at` on. Bit 0 is the most significant bit of the first
/// octet.
pub fn bits_at(octets: &[u8], at: u32, width: u32) -> u128
    requires width { (1 ≤ width) × (width ≤ 128) }
    requires within { at + width ≤ 8 * length octets.now }
    ensures number { word width result ≡ take width (drop at (bits octets.now)) }
    ensures below { result < 2 ^ width }
{
    let mut number = 0;
    let mut read: u32 = 0;
    while read < width {
        let from = at as u64 + read as u64;
        let offset = (from % 8) as u32;
        let count = (8 - offset).min(width - read);
        let octet = octets[(from / 8) as usize];
        number = appended(
            number,
            count,
            piece_of(octet as u128, 8 - offset - count, count),
        );
        read += count;
    }
    number
}

/// Writes `value` into `width` bits of `octets`, from bit `at` on. All other bits stay.
pub fn put_bits(octets: &mut [u8], at: u32, width: u32, value: u128)
    requires width { (1 ≤ width) × (width ≤ 128) }
    requires within { at + width ≤ 8 * length octets.old }
    requires fits { value < 2 ^ width }
    ensures { bits octets.new ≡ take at (bits octets.old) ++ (word width value ++ drop (at + width) (bits octets.old)) }
{
    let mut left = width;
    while left > 0 {
        let from = at as u64 + (width - left) as u64;
        let offset = (from % 8) as u32;
        let count = (8 - offset).min(left);
        left -= count;
        let piece = piece_of(value, left, count);
        let octet = &mut octets[(from / 8) as usize];
        *octet = with_piece(*octet, 8 - offset - count, count, piece);
    }
}

/// The number that `width` bits of the value `value` spell in two's complement.
pub fn signed_of(value: u128, width: u32) -> i128
    requires width { (1 ≤ width) × (width ≤ 128) }
    requires fits { value < 2 ^ width }
    ensures { result ≡ signed width value }
{
    let half = power_of_two(width - 1);
    if value < half {
        value as i128
    } else {
        (value - half) as i128 - (half - 1) as i128 - 1
    }
}

#[tactic(auto, using(crate::proofs::Steps::one_bit, crate::proofs::Steps::bit_bound))]
fn power_of_two(exponent: u32) -> u128
    requires { exponent < 128 }
    ensures value { result ≡ 2 ^ exponent }
    ensures bound { result ≤ 2 ^ 127 }
{
    1 << exponent
}

// The `count` bits of a number above its `below` lowest.
#[tactic(auto, using(crate::proofs::Steps::mask_low))]
fn piece_of(number: u128, below: u32, count: u32) -> u8
    requires { (below < 128) × (count ≤ 8) }
    ensures value { result ≡ number / 2 ^ below % 2 ^ count }
    ensures below { result < 2 ^ count }
{
    (number >> below & ((1 << count) - 1)) as u8
}

// `number` moved up by `count` bits, with `piece` in their place.
#[tactic(auto, using(crate::proofs::Steps::make_room))]
fn appended(number: u128, count: u32, piece: u8) -> u128
    requires fits { number * 2 ^ count < 2 ^ 128 }
    requires count { count ≤ 8 }
    requires below { piece < 2 ^ count }
    ensures { result ≡ number * 2 ^ count + piece }
{
    number << count | piece as u128
}

#[tactic(auto, using(crate::proofs::Steps::patches))]
// The octet with `piece` in place of its `count` bits above the `below` lowest.
fn with_piece(octet: u8, below: u32, count: u32, piece: u8) -> u8
    requires within { below + count ≤ 8 }
    requires fits { piece < 2 ^ count }
    ensures { result ≡ octet / 2 ^ (count + below) * 2 ^ (count + below) + (piece * 2 ^ below + octet % 2 ^ below) }
{
    let octet = octet as u32;
    let above = octet >> (count + below) << (count + below);
    let kept = octet & ((1 << below) - 1);
    (above + ((piece as u32) << below) + kept) as u8
}
