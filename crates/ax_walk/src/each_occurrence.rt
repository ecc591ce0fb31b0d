//! The next occurrence of a counted, wide or by-FX item.
ghost use Rattle.std.specs.Prelude.{◌≡◌, ◌≢◌, ◌<◌, ◌≤◌, [], length, Some};
ghost use Rattle.std.specs.Iterator.{YieldsFirstBy, item_count};
ghost use Rattle.ax_format.specs.InBounds.{InBounds};
ghost use Rattle.ax_format.specs.Tree.{counted};
ghost use Rattle.ax_codec.specs.Table.{kind_at};
ghost use Rattle.ax_walk.specs.Left.{occurrence_shown, occurrences_left};
ghost use Rattle.ax_walk.specs.Marked.{AreByFx, AreCounted};
ghost use Rattle.ax_walk.specs.Pieces.{first_size};
ghost use Rattle.ax_walk.specs.Values.{IsOne, ItemInBounds};
ghost use Rattle.ax_walk.specs.Walking.{fx_kind};

use crate::finding::walk_of;
use crate::item::ItemView;
use crate::notes::Notes;
use crate::occurrences::Occurrences;
use crate::units::fixed_width;
use crate::windows::{first_octets, octets_from};
use ax_codec::Codec;
use ax_format::Counter;
use ax_fspec::count_at;

impl<'c, 'a> Occurrences<'c, 'a> {
    /// The occurrences of a counted or wide item, after the counter.
    pub(crate) fn counted(
        codec: &'c Codec,
        size: Counter,
        inner: u32,
        body: &'a [u8],
    ) -> Occurrences<'c, 'a>
        requires link { (0 < inner) × (inner ≤ length codec.now.nodes) }
        requires bounds { InBounds (kind_at codec.now.nodes inner) }
        requires one { IsOne (counted size (kind_at codec.now.nodes inner)) body.now }
        ensures { AreCounted codec.now size inner body.now (occurrences_left result) }
    {
        let Some(count) = count_at(body, 0, size) else {
            return Occurrences::none(codec, inner, false);
        };
        Occurrences {
            codec,
            link: inner,
            by_fx: false,
            count,
            left: octets_from(body, size.octets()),
        }
    }

    /// The occurrences of an item by FX.
    pub(crate) fn by_fx(codec: &'c Codec, inner: u32, body: &'a [u8]) -> Occurrences<'c, 'a>
        requires link { (0 < inner) × (inner ≤ length codec.now.nodes) }
        requires bounds { InBounds (fx_kind codec.now.nodes inner) }
        requires one { IsOne (fx_kind codec.now.nodes inner) body.now }
        ensures { AreByFx codec.now inner body.now (occurrences_left result) }
    {
        let size = (fixed_width(codec.nodes.as_slice(), inner) + 1) / 8;
        Occurrences {
            codec,
            link: inner,
            by_fx: true,
            count: body.len() as u32 / size,
            left: body,
        }
    }

    /// No occurrences.
    pub(crate) fn none(codec: &'c Codec, link: u32, by_fx: bool) -> Occurrences<'c, 'a>
        requires link { (0 < link) × (link ≤ length codec.now.nodes) }
        requires bounds { ItemInBounds by_fx (kind_at codec.now.nodes link) }
        ensures { occurrences_left result ≡ [] }
    {
        Occurrences {
            codec,
            link,
            by_fx,
            count: 0,
            left: &[],
        }
    }

    /// How many octets the next occurrence has.
    fn next_size(&self) -> Option<u32>
        requires { self.now.count ≢ 0 }
        ensures { result ≡ Some (first_size self.now.by_fx (kind_at self.now.codec.now.nodes self.now.link) self.now.left.now) }
    {
        if self.by_fx {
            return Some((fixed_width(self.codec.nodes.as_slice(), self.link) + 1) / 8);
        }
        walk_of(self.codec, self.link, self.left, 0, &mut Notes::new())
    }
}

impl<'c, 'a> Iterator for Occurrences<'c, 'a> {
    type Item = ItemView<'c, 'a>;

    ghost next_gives = { YieldsFirstBy occurrence_shown occurrences_left };

    ghost remaining = { item_count occurrences_left };

    #[inline]
    fn next(&mut self) -> Option<ItemView<'c, 'a>> {
        if self.count == 0 {
            return None;
        }
        let Some(size) = self.next_size() else {
            return None;
        };
        let item = ItemView {
            codec: self.codec,
            link: self.link,
            by_fx: self.by_fx,
            body: first_octets(self.left, size),
        };
        *self = Occurrences {
            codec: self.codec,
            link: self.link,
            by_fx: self.by_fx,
            count: self.count - 1,
            left: octets_from(self.left, size),
        };
        Some(item)
    }
}
