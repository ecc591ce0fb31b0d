//! Bits written one after the other into a lent buffer.

ghost use Rattle.std.specs.Prelude.{◌≡◌, ◌+◌, ◌*◌, ◌/◌, ◌%◌, ◌^◌, ◌<◌, ◌≤◌, ◌++◌, [], length, take, drop, slice_set};
ghost use Rattle.ax_bits.specs.Bits.{word, bits};

use crate::put_bits;

/// An output: bits that were written, from the front of a lent buffer on, and the room after them. Its lender knows
/// the buffer's bits when it has ended.
#[derive(Drop)]
pub struct Out<'b> {
    buffer: &'b mut [u8],
    // How many bits were written.
    count: u32,
    ghost within: { (count ≤ 8 * length buffer.now) × (length buffer.now ≤ 2 ^ 20) },
}

impl<'b> Out<'b> {
    ghost use Rattle.ax_bits.specs.Out.{loan, written, unwritten, room, Appends, Replaces};

    /// An output with no bits, over a buffer of at most 2^20 octets.
    pub fn over(buffer: &'b mut [u8]) -> Out<'b>
        requires { length buffer.old ≤ 2 ^ 20 }
        ensures same_loan { loan result ≡ buffer.entry.ghost_name }
        ensures written { written result ≡ [] }
        ensures unwritten { unwritten result ≡ bits buffer.old }
        ensures room { room result ≡ 8 * length buffer.old }
    {
        Out { buffer, count: 0 }
    }

    /// How many bits are free.
    pub fn room(&self) -> u32
        ensures { result ≡ room self.now }
    {
        8 * self.buffer.len() as u32 - self.count
    }

    /// The octets that were written, of which there are only whole ones.
    pub fn octets(&self) -> &[u8]
        requires { length (written self.now) % 8 ≡ 0 }
        ensures bits { bits result.now ≡ written self.now }
        ensures count { 8 * length result.now ≡ length (written self.now) }
    {
        &self.buffer[..(self.count / 8) as usize]
    }

    /// Appends the `width` bits that spell `value`.
    pub fn push_bits(&mut self, value: u128, width: u32)
        requires width { (1 ≤ width) × (width ≤ 128) }
        requires fits { value < 2 ^ width }
        requires room { width ≤ room self.old }
        ensures { Appends self.old self.new (word width value) }
    {
        put_bits(self.buffer, self.count, width, value);
        self.count += width;
    }

    /// Appends the 8 bits of an octet.
    pub fn push_octet(&mut self, octet: u8)
        requires { 8 ≤ room self.old }
        ensures { Appends self.old self.new (word 8 octet) }
    {
        if self.count % 8 == 0 {
            self.buffer[(self.count / 8) as usize] = octet;
            self.count += 8;
        } else {
            self.push_bits(octet as u128, 8);
        }
    }

    /// Appends the bits of octets: where whole octets were written, by one copy.
    #[inline]
    pub fn push_octets(&mut self, octets: &[u8])
        requires { 8 * length octets.now ≤ room self.old }
        ensures { Appends self.old self.new (bits octets.now) }
    {
        if self.count % 8 == 0 {
            copy_at(self.buffer, (self.count / 8) as usize, octets);
            self.count += 8 * octets.len() as u32;
        } else {
            self.push_each(octets);
        }
    }

    // Appends octets after bits that fill no whole octet. It stands apart, so that a copy of octets is made without a call.
    #[cold]
    #[inline(never)]
    fn push_each(&mut self, octets: &[u8])
        requires { 8 * length octets.now ≤ room self.old }
        ensures { Appends self.old self.new (bits octets.now) }
    {
        for octet in octets {
            self.push_bits(*octet as u128, 8);
        }
    }

    /// Writes octet number `at` of the written ones again, from 0: that octet alone changes.
    pub fn replace(&mut self, at: u32, octet: u8)
        requires { 8 * at + 8 ≤ length (written self.old) }
        ensures { Replaces self.old self.new at octet }
    {
        self.buffer[at as usize] = octet;
    }
}

// Copies `octets` over those of the buffer from octet `from` on.
fn copy_at(buffer: &mut [u8], from: usize, octets: &[u8])
    requires { from + length octets.now ≤ length buffer.old }
    ensures { buffer.new ≡ take from buffer.old ++ (octets.now ++ drop (from + length octets.now) buffer.old) }
{
    buffer[from..from + octets.len()].copy_from_slice(octets);
}
