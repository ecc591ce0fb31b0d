//! What stands in the value of an item.
ghost use Rattle.std.specs.Prelude.{◌≡◌, ◌-◌, ◌≤◌, length, get_or, option_map, Some, IfSome};
ghost use Rattle.ax_format.specs.At.{slot_value};
ghost use Rattle.ax_format.specs.Sizes.{longest_body};
ghost use Rattle.ax_format.specs.Tree.{explicit};
ghost use Rattle.ax_walk.specs.Left.{parts_left, occurrences_left};
ghost use Rattle.ax_walk.specs.Shown.{item_value, item_entries, content_in, IsSubitem, SpellsItem, IsParts, IsOccurrences};
ghost use Rattle.ax_walk.specs.Values.{IsOne, value_in};

use crate::finding::find;
use crate::item::ItemView;
use crate::occurrences::Occurrences;
use crate::parts::PartSlices;
use ax_codec::Node;
use ax_format::LastPart;

impl<'c, 'a> ItemView<'c, 'a> {
    /// The codec's node of the item's kind.
    #[inline]
    pub fn node(&self) -> &'c Node
        ensures { result.now ≡ get_or self.now.codec.now.nodes (self.now.link - 1) result.now }
    {
        &self.codec.nodes.as_slice()[self.link as usize - 1]
    }

    /// The octets that spell the value, and no others; of an occurrence by FX, its FX bit too.
    #[inline]
    pub fn octets(&self) -> &'a [u8]
        ensures body { result.now ≡ self.now.body.now }
        ensures spelled { SpellsItem self.now result.now }
    {
        self.body
    }

    /// The subitem of a slot, which counts from 1, in its octets of the compound: those after the presence field and the
    /// subitems before. None comes exactly where this isn't a compound with that slot marked.
    pub fn subitem(&self, slot: u32) -> Option<ItemView<'c, 'a>>
        ensures value { option_map item_value result ≡ slot_value slot (item_entries self.now) }
        ensures place { IfSome result (IsSubitem self.now slot) }
    {
        match self.node() {
            Node::Compound { mask, slots } => {
                find(self.codec, mask, slots.as_slice(), self.body, slot)
            }
            _ => None,
        }
    }

    /// The parts of an extended or closed item that are present, in order: the octets of each, with its FX bit where the
    /// part has one. None for another kind.
    pub fn parts(&self) -> PartSlices<'c, 'a>
        ensures { IsParts self.now (parts_left result) }
    {
        match self.node() {
            Node::Extended { last, parts } => {
                PartSlices::of(self.codec, *last, parts.as_slice(), self.body)
            }
            _ => PartSlices::of(self.codec, LastPart::WithFx, &[], &[]),
        }
    }

    /// The occurrences of a counted, wide or by-FX item, in order, each of its octets alone; one by FX has its FX bit too.
    /// None for another kind.
    pub fn occurrences(&self) -> Occurrences<'c, 'a>
        ensures { IsOccurrences self.now (occurrences_left result) }
    {
        match self.node() {
            Node::Counted { counter, inner } => {
                Occurrences::counted(self.codec, *counter, *inner, self.body)
            }
            Node::ByFx { inner } => Occurrences::by_fx(self.codec, *inner, self.body),
            _ => Occurrences::none(self.codec, self.link, self.by_fx),
        }
    }

    /// The content of an explicit item. None comes exactly where the kind isn't explicit.
    pub fn explicit(&self) -> Option<&'a [u8]>
        ensures { option_map (λ content. content.now) result ≡ content_in (item_value self.now) }
    {
        match self.node() {
            Node::Explicit => Some(content(self.body)),
            _ => None,
        }
    }
}

/// The content of an explicit item, after the octet with its length.
pub(crate) fn content(body: &[u8]) -> &[u8]
    requires { IsOne explicit body.now }
    ensures value { Some result.now ≡ content_in (value_in explicit body.now) }
    ensures few { length result.now ≤ longest_body }
{
    let length = body[0] as usize;
    &body[1..length]
}
