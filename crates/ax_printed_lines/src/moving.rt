//! Octets moved up to others in front of them.
ghost use Rattle.std.specs.Prelude.{◌≡◌, ◌+◌, ◌-◌, ◌<◌, ◌≤◌, ◌++◌, length, take, drop};

/// How many octets are moved at once.
const AT_ONCE: usize = 32;

// Copies 32 octets from octet `from` on to octet `to` and the 31 after it.
#[inline(always)]
fn many_copied(buffer: &mut [u8], from: usize, to: usize)
    requires { (to ≤ from) × (from + 32 ≤ length buffer.old) }
    ensures size { length buffer.new ≡ length buffer.old }
    ensures copied { take (to + 32) buffer.new ≡ take to buffer.old ++ take 32 (drop from buffer.old) }
    ensures rest { drop (to + 32) buffer.new ≡ drop (to + 32) buffer.old }
{
    let mut piece = [0u8; AT_ONCE];
    piece.copy_from_slice(&buffer[from..from + AT_ONCE]);
    buffer[to..to + AT_ONCE].copy_from_slice(&piece);
}

// Copies octets from octet `from` on to octet `to` and those after it, 32 where there are as many, else one. It answers how many.
#[inline(always)]
fn piece_copied(buffer: &mut [u8], from: usize, to: usize) -> usize
    requires { (to ≤ from) × (from < length buffer.old) }
    ensures some { (0 < result) × (from + result ≤ length buffer.old) }
    ensures size { length buffer.new ≡ length buffer.old }
    ensures copied { take (to + result) buffer.new ≡ take to buffer.old ++ take result (drop from buffer.old) }
    ensures rest { drop (to + result) buffer.new ≡ drop (to + result) buffer.old }
{
    if buffer.len() - from < AT_ONCE {
        buffer[to] = buffer[from];
        return 1;
    }
    many_copied(buffer, from, to);
    AT_ONCE
}

/// Moves the octets from octet `from` on, up to octet `stop`, to octet `to` and those after it. It answers where they end.
pub fn moved_up(buffer: &mut [u8], from: usize, to: usize, stop: usize) -> usize
    requires { (to ≤ from) × (from ≤ stop) × (stop ≤ length buffer.old) }
    ensures size { length buffer.new ≡ length buffer.old }
    ensures end { result ≡ to + (stop - from) }
    ensures moved { take result buffer.new ≡ take to buffer.old ++ take (stop - from) (drop from buffer.old) }
{
    let end = to + (stop - from);
    if to == from {
        return end;
    }
    let mut read = from;
    let mut laid = to;
    while laid < end {
        let count = piece_copied(buffer, read, laid);
        read += count;
        laid += count;
    }
    end
}
