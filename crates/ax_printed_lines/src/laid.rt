//! Bits laid one after another over a lent buffer.
ghost use Rattle.std.specs.Prelude.{◌≡◌, ◌+◌, ◌-◌, ◌*◌, ◌%◌, ◌^◌, ◌<◌, ◌≤◌, ◌++◌, [], length, take, drop, IfSome};
ghost use Rattle.std.specs.Int.{w64, to_be_bytes};
ghost use Rattle.ax_bits.specs.Bits.{word, bits};

use crate::moving::moved_up;

/// The most bits that are laid at once.
pub const AT_ONCE: u32 = 56;

/// Bits that are laid, from the front of a lent buffer on. The last of them, up to 63, are held as a number, so that eight octets at a
/// time are written.
#[derive(Drop)]
pub struct LaidBits<'b> {
    buffer: &'b mut [u8],
    // How many octets are written.
    count: usize,
    // The bits after them, and how many they are.
    held: u64,
    width: u32,
    ghost within: { (count ≤ length buffer.now) × (width < 64) × (held < 2 ^ width) },
}

// A number of bits, and others after it.
#[inline(always)]
fn with_value(held: u64, value: u64, width: u32) -> u64
    requires { (width < 64) × (held * 2 ^ width + value < 2 ^ 64) }
    ensures { result ≡ held * 2 ^ width + value }
{
    (held << width) + value
}

// The lowest bits of a number.
#[inline(always)]
#[tactic(auto, using(ax_bits::proofs::ShortNumbers::mask_wide))]
fn lowest(number: u64, width: u32) -> u64
    requires { width ≤ 56 }
    ensures value { result ≡ number % 2 ^ width }
    ensures below { result < 2 ^ width }
{
    number & ((1 << width) - 1)
}

// Stores the eight octets of a number from octet `from` on.
#[inline(always)]
fn store_eight(buffer: &mut [u8], from: usize, number: u64)
    requires { from + 8 ≤ length buffer.old }
    ensures size { length buffer.new ≡ length buffer.old }
    ensures stored { take (from + 8) buffer.new ≡ take from buffer.old ++ to_be_bytes w64 number }
{
    buffer[from..from + 8].copy_from_slice(&number.to_be_bytes());
}

// Lays the whole octets of that many bits, which spell a number, from octet `from` on. It answers how many octets are laid then, and
// how many bits are left over. None comes where there is no room. Where eight octets have room, they are stored at once, whatever
// stands after those that are laid.
#[inline(always)]
fn lay_octets(buffer: &mut [u8], from: usize, number: u64, width: u32) -> Option<(usize, u32)>
    requires { (from ≤ length buffer.old) × (width < 64) }
    ensures within { IfSome result (λ end. (end.0 ≤ length buffer.new) × (end.1 < 8)) }
    ensures laid { IfSome result (λ end. bits (take end.0 buffer.new) ++ word end.1 number ≡ bits (take from buffer.old) ++ word width number) }
{
    if buffer.len() - from < 8 {
        return lay_each(buffer, from, number, width);
    }
    // A shift by 64 is none in Rust. Where the shift by one bit comes last, the compiler turns the octets round one by one.
    store_eight(buffer, from, number << 1 << (63 - width));
    Some((from + (width / 8) as usize, width % 8))
}

// The same, octet by octet.
#[cold]
fn lay_each(buffer: &mut [u8], from: usize, number: u64, width: u32) -> Option<(usize, u32)>
    requires { (from ≤ length buffer.old) × (width < 64) }
    ensures within { IfSome result (λ end. (end.0 ≤ length buffer.new) × (end.1 < 8)) }
    ensures laid { IfSome result (λ end. bits (take end.0 buffer.new) ++ word end.1 number ≡ bits (take from buffer.old) ++ word width number) }
{
    let mut count = from;
    let mut left = width;
    while left >= 8 {
        if count >= buffer.len() {
            return None;
        }
        left -= 8;
        buffer[count] = ((number >> left) % 256) as u8;
        count += 1;
    }
    Some((count, left))
}

// Writes octets over those of the buffer from octet `from` on.
fn replaced(buffer: &mut [u8], from: usize, octets: &[u8])
    requires { from + length octets.now ≤ length buffer.old }
    ensures { buffer.new ≡ take from buffer.old ++ (octets.now ++ drop (from + length octets.now) buffer.old) }
{
    buffer[from..from + octets.len()].copy_from_slice(octets);
}

impl<'b> LaidBits<'b> {
    ghost use Rattle.ax_printed_lines.specs.Laid.{laid, Lays, Leaves, Fills};

    /// No bits, over a buffer.
    pub fn over(buffer: &'b mut [u8]) -> LaidBits<'b>
        ensures { laid result ≡ [] }
    {
        LaidBits {
            buffer,
            count: 0,
            held: 0,
            width: 0,
        }
    }

    /// Lays the `width` bits that spell a value, at most 56. None comes where there is no room.
    #[inline(always)]
    pub fn push(&mut self, value: u64, width: u32) -> Option<()>
        requires width { width ≤ 56 }
        requires fits { value < 2 ^ width }
        ensures { IfSome result (λ done. Lays self.old self.new (word width value)) }
    {
        self.make_room(width)?;
        self.held = with_value(self.held, value, width);
        self.width += width;
        Some(())
    }

    // Writes held octets, where so many bits more would be too many to be held.
    #[inline(always)]
    fn make_room(&mut self, width: u32) -> Option<()>
        requires { width ≤ 56 }
        ensures same { IfSome result (λ done. laid self.new ≡ laid self.old) }
        ensures room { IfSome result (λ done. self.new.width + width ≤ 63) }
    {
        if self.width + width <= 63 {
            return Some(());
        }
        self.settle()
    }

    /// Writes the whole octets that are held. None comes where there is no room.
    #[inline(never)]
    pub fn settle(&mut self) -> Option<()>
        ensures same { IfSome result (λ done. laid self.new ≡ laid self.old) }
        ensures few { IfSome result (λ done. self.new.width < 8) }
    {
        let (count, left) = lay_octets(self.buffer, self.count, self.held, self.width)?;
        self.count = count;
        self.held = lowest(self.held, left);
        self.width = left;
        Some(())
    }

    // The same of a value below 2^32, with zeros in front where the bits are many.
    fn push_upper(&mut self, value: u64, width: u32) -> Option<()>
        requires width { width ≤ 112 }
        requires fits { value < 2 ^ width }
        requires small { value < 2 ^ 32 }
        ensures { IfSome result (λ done. Lays self.old self.new (word width value)) }
    {
        if width > AT_ONCE {
            self.push(0, width - AT_ONCE)?;
            return self.push(value, AT_ONCE);
        }
        self.push(value, width)
    }

    /// Lays the `width` bits that spell a value, more than 56: its upper bits and then its 32 lowest.
    #[cold]
    pub fn push_wide(&mut self, value: u64, width: u32) -> Option<()>
        requires width { (56 < width) × (width ≤ 128) }
        requires fits { value < 2 ^ width }
        ensures { IfSome result (λ done. Lays self.old self.new (word width value)) }
    {
        self.push_upper(value >> 32, width - 32)?;
        self.push(value % 0x1_0000_0000, 32)
    }

    /// Leaves room for so many octets after what is laid. It answers at which octet the room begins. None comes where bits are left
    /// over, or where the buffer has no such room.
    pub fn leave(&mut self, room: usize) -> Option<usize>
        ensures { IfSome result (λ at. Leaves self.old self.new at room) }
    {
        self.settle()?;
        self.leave_settled(room)
    }

    // The same where no octet is held.
    fn leave_settled(&mut self, room: usize) -> Option<usize>
        ensures { IfSome result (λ at. Leaves self.old self.new at room) }
    {
        if self.width != 0 || self.buffer.len() - self.count < room {
            return None;
        }
        let at = self.count;
        self.count += room;
        Some(at)
    }

    /// Writes octets into the room of so many octets that was left at octet `at`. What is laid behind the room comes straight after
    /// them, and no octet is held any more. None comes where they don't fit there.
    pub fn fill(&mut self, at: usize, room: usize, octets: &[u8]) -> Option<()>
        ensures { IfSome result (λ done. Fills self.old self.new at room (bits octets.now)) }
    {
        self.settle()?;
        self.fill_settled(at, room, octets)
    }

    // The same where no octet is held.
    fn fill_settled(&mut self, at: usize, room: usize, octets: &[u8]) -> Option<()>
        ensures { IfSome result (λ done. Fills self.old self.new at room (bits octets.now)) }
    {
        if self.count < room || self.count - room < at || octets.len() > room {
            return None;
        }
        replaced(self.buffer, at, octets);
        self.count = moved_up(self.buffer, at + room, at + octets.len(), self.count);
        Some(())
    }

    /// The octets that are laid. None comes where bits are held.
    pub fn octets(&self) -> Option<&[u8]>
        ensures { IfSome result (λ octets. bits octets.now ≡ laid self.now) }
    {
        if self.width > 0 {
            return None;
        }
        Some(&self.buffer[..self.count])
    }
}
