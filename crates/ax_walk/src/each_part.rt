//! The next part of an extended or closed item.
ghost use Rattle.std.specs.Prelude.{◌≡◌};
ghost use Rattle.std.specs.Iterator.{YieldsFirstRef, item_count};
ghost use Rattle.ax_codec.specs.Meaning.{meanings, linked_parts};
ghost use Rattle.ax_walk.specs.Left.{parts_left};
ghost use Rattle.ax_walk.specs.Pieces.{ArePartsLeft, part_pieces, part_sizes};

use crate::parts::PartSlices;
use crate::units::part_width;
use crate::windows::{first_octets, octets_from};
use ax_codec::Codec;
use ax_format::LastPart;

impl<'c, 'a> PartSlices<'c, 'a> {
    /// The parts that these links lead to, as far as the octets go.
    #[inline]
    pub(crate) fn of(
        codec: &'c Codec,
        last: LastPart,
        links: &'c [u32],
        octets: &'a [u8],
    ) -> PartSlices<'c, 'a>
        requires { ArePartsLeft codec.now.nodes last links.now octets.now }
        ensures { parts_left result ≡ part_pieces (part_sizes last (linked_parts (meanings codec.now.nodes) links.now)) octets.now }
    {
        PartSlices {
            codec,
            last,
            links,
            left: octets,
        }
    }
}

impl<'c, 'a> Iterator for PartSlices<'c, 'a> {
    type Item = &'a [u8];

    ghost next_gives = { YieldsFirstRef parts_left };

    ghost remaining = { item_count parts_left };

    #[inline]
    fn next(&mut self) -> Option<&'a [u8]> {
        if self.left.is_empty() {
            return None;
        }
        let Some((part, later)) = self.links.split_first() else {
            return None;
        };
        let fx = self.last.fx_width(later.len());
        let size = (part_width(self.codec.nodes.as_slice(), *part) + fx) / 8;
        let slice = first_octets(self.left, size);
        *self = PartSlices {
            codec: self.codec,
            last: self.last,
            links: later,
            left: octets_from(self.left, size),
        };
        Some(slice)
    }
}
