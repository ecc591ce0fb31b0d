//! The parts of extended and closed items, as far as their octets in a body are asked for.
ghost use Rattle.ax_text_lines.specs.HeldText.{text_part};

use crate::drafting::TextPart;
use ax_values::SizedPart;

impl<'s> SizedPart for TextPart<'s> {
    ghost tree = { λ part. text_part part };

    #[inline]
    fn members_width(&self) -> u64 {
        self.width
    }
}
