//! What stands in a record: its items, and the numbers at its places.
ghost use Rattle.std.specs.Prelude.{◌≡◌, ◌∷◌, ◌<◌, ◌≤◌, option_map, IfSome};
ghost use Rattle.ax_format.specs.At.{slot_value, value_at, is_present, At};
ghost use Rattle.ax_format.specs.Tree.{marked};
ghost use Rattle.ax_walk.specs.InPlace.{StandsInPlace};
ghost use Rattle.ax_walk.specs.Shown.{item_value, record_entries, IsOfSlot};
ghost use Rattle.ax_walk.specs.Spots.{IsSpot};
ghost use Rattle.ax_walk.specs.Values.{SpellsAny};

use crate::finding::{EARLY, find_early, find_late};
use crate::item::ItemView;
use crate::record::RecordView;
use crate::spot::{Spot, fixed_number, spot_of};
use ax_codec::Codec;
use ax_format::Place;

impl<'c, 'a> RecordView<'c, 'a> {
    /// The codec that the record is seen under.
    #[inline]
    pub fn codec(&self) -> &'c Codec
        ensures { result.now ≡ self.now.codec.now }
    {
        self.codec
    }

    /// The octets that spell the record, and no others.
    #[inline]
    pub fn octets(&self) -> &'a [u8]
        ensures body { result.now ≡ self.now.body.now }
        ensures spelled { SpellsAny self.now.codec.now result.now }
    {
        self.body
    }

    /// The item of a field reference number, in its octets of the record: those after the presence field and the items before.
    /// None comes exactly where it isn't marked.
    #[inline(always)]
    pub fn item(&self, frn: u32) -> Option<ItemView<'c, 'a>>
        ensures value { option_map item_value result ≡ slot_value frn (record_entries self.now) }
        ensures place { IfSome result (IsOfSlot self.now.codec.now self.now.codec.now.slots frn) }
        ensures window { IfSome result (λ item. StandsInPlace self.now.codec.now.nodes self.now.codec.now.slots frn self.now.body.now item.body.now) }
    {
        let slots = self.codec.slots.as_slice();
        if frn <= EARLY && self.field > 0 {
            return find_early(self.codec, slots, self.body, self.field, frn);
        }
        find_late(self.codec, &self.codec.mask, slots, self.body, frn)
    }

    /// What stands at a place in an item of the first presence octet's slots, where the walk told the octets of the field.
    #[inline(always)]
    fn early_spot(&self, place: &Place) -> Spot<'a>
        requires early { place.now.frn ≤ 7 }
        requires told { 0 < self.now.field }
        ensures { IsSpot self.now.codec.now.nodes result (value_at (place.now.frn ∷ place.now.steps) (marked (record_entries self.now))) }
    {
        let slots = self.codec.slots.as_slice();
        match find_early(self.codec, slots, self.body, self.field, place.frn) {
            Some(item) => spot_of(&item, place.steps.as_slice()),
            None => Spot::Missing,
        }
    }

    /// What stands at a place.
    #[inline(always)]
    fn spot(&self, place: &Place) -> Spot<'a>
        ensures { IsSpot self.now.codec.now.nodes result (value_at (place.now.frn ∷ place.now.steps) (marked (record_entries self.now))) }
    {
        match self.item(place.frn) {
            Some(item) => spot_of(&item, place.steps.as_slice()),
            None => Spot::Missing,
        }
    }

    /// Whether something stands at a place: its item is marked, and within it each slot and part that the steps lead
    /// through is there.
    #[inline]
    pub fn present(&self, place: &Place) -> bool
        ensures { result ≡ is_present (record_entries self.now) place.now }
    {
        !matches!(self.spot(place), Spot::Missing)
    }

    /// The number at a place. None comes exactly where none stands there: the place of an element isn't present.
    #[inline(always)]
    pub fn number(&self, place: &Place) -> Option<u128>
        ensures { result ≡ At (record_entries self.now) place.now }
    {
        if place.frn <= EARLY && self.field > 0 {
            return match self.early_spot(place) {
                Spot::Fixed { link, bit, octets } => {
                    fixed_number(self.codec.nodes.as_slice(), link, bit, octets)
                }
                _ => None,
            };
        }
        self.late_number(place)
    }

    /// The same, of any item. It stands apart, so that an early item isn't put into memory.
    #[inline(never)]
    fn late_number(&self, place: &Place) -> Option<u128>
        ensures { result ≡ At (record_entries self.now) place.now }
    {
        match self.spot(place) {
            Spot::Fixed { link, bit, octets } => {
                fixed_number(self.codec.nodes.as_slice(), link, bit, octets)
            }
            _ => None,
        }
    }
}
