//! Sets of slots.

ghost use Rattle.std.specs.Prelude.{◌≡◌, ◌↔◌, ◌+◌, ◌-◌, ◌*◌, ◌<◌, ◌≤◌, ◌++◌, [], ◌∷◌, IsTrue, IfSome, IfNone, length, not, take, drop, slice_set};
ghost use Rattle.ax_format.specs.Presence.{none_marked};
ghost use Rattle.ax_fspec.specs.Marks.{seven, no_marks, common_marks, AreMarks, IsMarked, slots_of};

use crate::half::{
    first_place, has_mark, is_marked_after, seven_marks, shared_marks, with_mark, with_seven,
    without_first,
};
use std::marker::Model;

/// A set of slots from 1 to 126, which are those that a presence field can mark. Contracts see its 126 marks in order,
/// a 1 for each slot in the set.
#[derive(Clone, Copy)]
pub struct Presence {
    // The marks of slots 1 to 63: slot 1 at bit 62, slot 63 at bit 0.
    first: u64,
    // The marks of slots 64 to 126, in the same order.
    second: u64,
}

impl Model for Presence {
    ghost use Rattle.std.specs.Prelude.{ℕ, List, ◌<◌, ◌^◌, take, drop};
    ghost use Rattle.ax_bits.specs.Bits.{number_of};
    ghost use Rattle.ax_fspec.specs.Marks.{marks_in};
    ghost use Rattle.ax_fspec.specs.Words.{first_number, second_number};

    ghost Value = { List ℕ };

    ghost view = { λ p. marks_in p.first p.second };

    ghost invariant = { λ p. (p.first < 2 ^ 63) × (p.second < 2 ^ 63) };

    ghost inverse = { λ marks. record { first = number_of (take 63 marks); second = number_of (drop 63 marks) } };

    ghost inverse_ok = { λ p h. λ i. record { first = first_number p.first p.second h.0 i; second = second_number p.first p.second h.1 i } };
}

impl Presence {
    /// The set with no slot.
    #[inline]
    pub fn empty() -> Presence
        ensures { result ≡ no_marks }
    {
        Presence {
            first: 0,
            second: 0,
        }
    }

    /// Whether a slot is in the set. Slot 0 and slots above 126 never are.
    #[inline]
    pub fn has(&self, slot: u32) -> bool
        ensures { IsTrue result ↔ IsMarked self.now slot }
    {
        if slot < 64 {
            slot > 0 && has_mark(self.first, slot - 1)
        } else {
            slot < 127 && has_mark(self.second, slot - 64)
        }
    }

    /// Adds a slot from 1 to 126, and no other.
    #[inline]
    pub fn mark(&mut self, slot: u32)
        requires { (1 ≤ slot) × (slot ≤ 126) }
        ensures { self.new ≡ slice_set self.old (slot - 1) 1 }
    {
        if slot < 64 {
            self.first = with_mark(self.first, slot - 1);
        } else {
            self.second = with_mark(self.second, slot - 64);
        }
    }

    /// The slots that are in both sets.
    #[inline]
    pub fn common(&self, other: &Presence) -> Presence
        ensures common { result ≡ common_marks self.now other.now }
        ensures sets { AreMarks self.now × AreMarks other.now }
    {
        Presence {
            first: shared_marks(self.first, other.first),
            second: shared_marks(self.second, other.second),
        }
    }

    /// Takes the least slot out of the set. None is there exactly where the set is empty.
    #[inline]
    pub fn take_first(&mut self) -> Option<u32>
        ensures some { IfSome result (λ slot. slots_of self.old ≡ slot ∷ slots_of self.new) }
        ensures marks { IfSome result (λ slot. self.new ≡ slice_set self.old (slot - 1) 0) }
        ensures none { IfNone result (slots_of self.old ≡ []) }
        ensures unchanged { IfNone result (self.new ≡ self.old) }
        ensures within { IfSome result (λ slot. (1 ≤ slot) × (slot ≤ 126)) }
    {
        if self.first != 0 {
            let place = first_place(self.first);
            self.first = without_first(self.first, place);
            return Some(1 + place);
        }
        if self.second != 0 {
            let place = first_place(self.second);
            self.second = without_first(self.second, place);
            return Some(64 + place);
        }
        None
    }

    /// The seven marks of a presence octet from 0 to 17, in the seven low bits.
    #[inline]
    pub(crate) fn octet(&self, octet: u32) -> u8
        requires { octet < 18 }
        ensures marks { seven result ≡ take 7 (drop (7 * octet) self.now) }
        ensures fits { result < 128 }
    {
        if octet < 9 {
            seven_marks(self.first, octet)
        } else {
            seven_marks(self.second, octet - 9)
        }
    }

    /// Adds the slots that `marks` marks in a presence octet from 0 to 17. No slot of that octet or a later one may be
    /// in the set.
    #[inline]
    pub(crate) fn mark_octet(&mut self, octet: u32, marks: u8)
        requires octet { octet < 18 }
        requires marks { marks < 128 }
        requires none_following { IsTrue (none_marked (drop (7 * octet) self.old)) }
        ensures marks { take (7 * octet + 7) self.new ≡ take (7 * octet) self.old ++ seven marks }
        ensures none_following { IsTrue (none_marked (drop (7 * octet + 7) self.new)) }
        ensures size { length self.new ≡ 126 }
    {
        if octet < 9 {
            self.first = with_seven(self.first, octet, marks);
        } else {
            self.second = with_seven(self.second, octet - 9, marks);
        }
    }

    /// Whether a slot after those of a presence octet from 0 to 17 is in the set.
    #[inline]
    pub(crate) fn goes_on_after(&self, octet: u32) -> bool
        requires { octet < 18 }
        ensures marked { result ≡ not (none_marked (drop (7 * octet + 7) self.now)) }
        ensures within { IsTrue result → octet < 17 }
    {
        if octet < 9 {
            self.second != 0 || is_marked_after(self.first, octet)
        } else {
            is_marked_after(self.second, octet - 9)
        }
    }
}
