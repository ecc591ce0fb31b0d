//! The slots of a set, one after the other.

ghost use Rattle.std.specs.Prelude.{◌≡◌};
ghost use Rattle.std.specs.Iterator.{YieldsFirst, item_count};
ghost use Rattle.ax_fspec.specs.Marks.{slots_of};
ghost use Rattle.ax_fspec.specs.Walk.{slots_left};

use crate::set::Presence;

/// The slots of a set in ascending order, without a pass over those that aren't in it.
#[derive(Clone, Copy)]
pub struct MarkedSlots {
    left: Presence,
}

impl Presence {
    /// The slots of the set, ascending.
    #[inline]
    pub fn slots(&self) -> MarkedSlots
        ensures { slots_left result ≡ slots_of self.now }
    {
        MarkedSlots { left: *self }
    }
}

impl Iterator for MarkedSlots {
    type Item = u32;

    ghost next_gives = { YieldsFirst slots_left };

    ghost remaining = { item_count slots_left };

    #[inline]
    fn next(&mut self) -> Option<u32> {
        self.left.take_first()
    }
}
