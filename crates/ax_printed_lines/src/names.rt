//! Names and words at the front of octets.
ghost use Rattle.std.specs.Prelude.{◌≡◌, ℕ, ◌+◌, ◌-◌, ◌*◌, ◌/◌, ◌^◌, ◌≤◌, ◌∷◌, ◌++◌, length, take, IsTrue, IfSome};
ghost use Rattle.ax_bits.specs.Bits.{word, bits};
ghost use Rattle.ax_format.specs.Characters.{IsName};

use ax_bits::short_bits_at;
use ax_format::Name;

/// The most octets of a name that are compared as one number.
const MOST_AT_ONCE: usize = 7;

/// The most octets of a name that are compared as one number with the space behind it.
const SHORT: usize = 6;

/// The most octets of a name.
const LONGEST: usize = 16;

/// The octets in front, as a name's octets are kept: sixteen octets, zeros after the last, in two numbers. The slot of a name is looked
/// for by them. That the name stands there `begins_with` says.
#[derive(Clone, Copy)]
pub struct FrontWord {
    first: u64,
    second: u64,
}

/// The number of eight octets from that place on, of which the first is the lowest.
#[inline(always)]
fn eight_from(octets: &[u8], at: usize) -> u64
    requires { at + 8 ≤ length octets.now }
{
    u64::from_le_bytes([
        octets[at],
        octets[at + 1],
        octets[at + 2],
        octets[at + 3],
        octets[at + 4],
        octets[at + 5],
        octets[at + 6],
        octets[at + 7],
    ])
}

/// Whether the first octets of eight, 1 to 8 of them, are all 0.
#[inline(always)]
fn is_zero_up_to(octets: u64, count: usize) -> bool
    requires { count ≤ 8 }
{
    octets << ((64 - 8 * count) % 64) == 0
}

impl FrontWord {
    /// The octets in front.
    #[inline(always)]
    pub fn of(octets: &[u8]) -> FrontWord {
        if octets.len() >= LONGEST {
            return FrontWord::of_sixteen(octets);
        }
        let mut padded = [0u8; LONGEST];
        padded[..octets.len()].copy_from_slice(octets);
        FrontWord::of_sixteen(&padded)
    }

    #[inline(always)]
    fn of_sixteen(octets: &[u8]) -> FrontWord
        requires { 16 ≤ length octets.now }
    {
        FrontWord {
            first: eight_from(octets, 0),
            second: eight_from(octets, 8),
        }
    }

    /// Whether they begin with that name, as far as sixteen octets tell.
    #[inline(always)]
    pub fn is(self, name: &Name) -> bool {
        let count = name.octets().len();
        let differing = self.first ^ eight_from(name.padded(), 0);
        if count > MOST_AT_ONCE {
            return differing == 0 && self.goes_on_as(name, count - 8);
        }
        is_zero_up_to(differing, count)
    }

    // The same of so many octets of the name after its first eight.
    #[cold]
    fn goes_on_as(self, name: &Name, count: usize) -> bool
        requires { count ≤ 8 }
    {
        count == 0 || is_zero_up_to(self.second ^ eight_from(name.padded(), 8), count)
    }
}

/// The number of the first eight octets, the first of which is the highest.
#[inline(always)]
pub fn eight_in_front(octets: &[u8]) -> u64
    requires { 8 ≤ length octets.now }
    ensures { (w : ℕ) → w ≤ 56 → word w (result / 2 ^ (64 - w)) ≡ take w (bits octets.now) }
{
    u64::from_be_bytes([
        octets[0], octets[1], octets[2], octets[3], octets[4], octets[5], octets[6], octets[7],
    ])
}

/// What comes after a name of at most six octets in front and one space behind it, as mostly behind names. None comes for any other.
#[inline(always)]
pub fn after_spaced_name<'t>(octets: &'t [u8], name: &Name) -> Option<&'t [u8]>
    ensures stands { IfSome result (λ left. octets.now ≡ name.now ++ 32 ∷ left.now) }
    ensures name { IfSome result (λ left. IsName name.now) }
{
    let count = name.octets().len();
    if count > SHORT || octets.len() < 8 {
        return None;
    }
    let differing = eight_in_front(octets) ^ eight_in_front(name.padded());
    if differing >> (64 - 8 * count) != 0 || octets[count] != b' ' {
        return None;
    }
    Some(&octets[count + 1..])
}

/// The same where a token follows.
#[inline(always)]
pub fn after_short_name<'t>(octets: &'t [u8], name: &Name) -> Option<&'t [u8]>
    ensures stands { IfSome result (λ left. octets.now ≡ name.now ++ 32 ∷ left.now) }
    ensures name { IfSome result (λ left. IsName name.now) }
{
    let left = after_spaced_name(octets, name)?;
    let next = left.first()?;
    if *next <= b' ' {
        return None;
    }
    Some(left)
}

/// Whether the octets are the same. Words are short, so that octet by octet is quickest.
#[inline(always)]
pub fn are_same(octets: &[u8], word: &[u8]) -> bool
    ensures { IsTrue result → octets.now ≡ word.now }
{
    octets.len() == word.len()
        && octets
            .iter()
            .zip(word)
            .all(|(octet, wanted)| octet == wanted)
}

/// Whether the name stands at the front. Most names are short: their octets are compared as one number, whatever their count.
#[inline(always)]
pub fn begins_with(octets: &[u8], name: &Name) -> bool
    requires { length name.now ≤ length octets.now }
    ensures { IsTrue result → take (length name.now) octets.now ≡ name.now }
{
    let wanted = name.octets();
    let count = wanted.len();
    if count > MOST_AT_ONCE {
        return are_same(&octets[..count], wanted);
    }
    let width = 8 * count as u32;
    short_bits_at(octets, 0, width) == short_bits_at(name.padded(), 0, width)
}
