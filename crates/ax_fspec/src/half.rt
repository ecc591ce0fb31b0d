//! The marks of 63 slots in a word: that at place `p`, from 0 to 62, is bit `62 - p`.

ghost use Rattle.std.specs.Prelude.{◌≡◌, ◌↔◌, ◌+◌, ◌-◌, ◌*◌, ◌^◌, ◌<◌, ◌≤◌, ◌++◌, IsTrue, not, take, drop, slice_index, slice_set};
ghost use Rattle.ax_bits.specs.Bits.{word};
ghost use Rattle.ax_format.specs.Presence.{none_marked};
ghost use Rattle.ax_fspec.specs.Marks.{half, seven, common_marks};

/// Whether the mark at a place is set.
#[inline]
#[tactic(auto, using(crate::proofs::Halves::places))]
pub fn has_mark(marks: u64, place: u32) -> bool
    requires { place < 63 }
    ensures { IsTrue result ↔ (slice_index (half marks) place ≡ 1) }
{
    marks >> (62 - place) & 1 == 1
}

/// The marks with that at a place set.
#[inline]
#[tactic(auto, using(crate::proofs::Halves::places))]
pub fn with_mark(marks: u64, place: u32) -> u64
    requires place { place < 63 }
    requires fits { marks < 2 ^ 63 }
    ensures marks { half result ≡ slice_set (half marks) place 1 }
    ensures fits { result < 2 ^ 63 }
{
    marks | 1 << (62 - place)
}

/// The seven marks of a presence octet, in the seven low bits.
#[inline]
#[tactic(auto, using(crate::proofs::Halves::seven_read))]
pub fn seven_marks(marks: u64, octet: u32) -> u8
    requires { octet < 9 }
    ensures marks { seven result ≡ take 7 (drop (7 * octet) (half marks)) }
    ensures fits { result < 128 }
{
    (marks >> (56 - 7 * octet) & 0x7f) as u8
}

/// The marks with the seven of a presence octet set to those of `new`, where none from there on was set.
#[inline]
#[tactic(auto, using(crate::proofs::Halves::seven_written))]
pub fn with_seven(marks: u64, octet: u32, new: u8) -> u64
    requires octet { octet < 9 }
    requires new { new < 128 }
    requires fits { marks < 2 ^ 63 }
    requires none_following { IsTrue (none_marked (drop (7 * octet) (half marks))) }
    ensures marks { half result ≡ take (7 * octet) (half marks) ++ (seven new ++ word (56 - 7 * octet) 0) }
    ensures fits { result < 2 ^ 63 }
{
    marks | (new as u64) << (56 - 7 * octet)
}

/// Whether a mark after those of a presence octet is set.
#[inline]
#[tactic(auto, using(crate::proofs::Halves::marked_following))]
pub fn is_marked_after(marks: u64, octet: u32) -> bool
    requires { octet < 9 }
    ensures { result ≡ not (none_marked (drop (7 * octet + 7) (half marks))) }
{
    marks & ((1 << (56 - 7 * octet)) - 1) != 0
}

/// The place of the first mark that is set.
#[inline]
#[tactic(auto, using(crate::proofs::Halves::leading))]
pub fn first_place(marks: u64) -> u32
    requires { (0 < marks) × (marks < 2 ^ 63) }
    ensures place { result < 63 }
    ensures low { 2 ^ (62 - result) ≤ marks }
    ensures high { marks < 2 ^ (63 - result) }
{
    marks.leading_zeros() - 1
}

/// The marks without the first that is set, which is at `place`.
#[inline]
#[tactic(auto, using(crate::proofs::Halves::places))]
pub fn without_first(marks: u64, place: u32) -> u64
    requires place { place < 63 }
    requires set { 2 ^ (62 - place) ≤ marks }
    ensures { result ≡ marks - 2 ^ (62 - place) }
{
    marks - (1 << (62 - place))
}

/// The marks that are set in both words.
#[inline]
#[tactic(auto, using(crate::proofs::Halves::sharing))]
pub fn shared_marks(marks: u64, others: u64) -> u64
    requires fits { marks < 2 ^ 63 }
    ensures marks { half result ≡ common_marks (half marks) (half others) }
    ensures fits { result < 2 ^ 63 }
{
    marks & others
}
