//! The parts of extended and closed items, as far as their octets in a body are asked for.
ghost use Rattle.ax_held_kinds.specs.Held.{held_part};

use crate::kinds::HeldPart;
use ax_values::SizedPart;

impl<'s> SizedPart for HeldPart<'s> {
    ghost tree = { λ part. held_part part };

    #[inline]
    fn members_width(&self) -> u64 {
        self.width
    }
}
