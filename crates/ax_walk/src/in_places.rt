//! What stands in a slot and below it, by the place that is known.
ghost use Rattle.std.specs.Prelude.{◌≡◌, ◌∷◌, is_some, option_map, IfSome};
ghost use Rattle.ax_format.specs.At.{slot_value, value_at, is_present, At};
ghost use Rattle.ax_format.specs.Tree.{marked};
ghost use Rattle.ax_walk.specs.Marked.{placed_value};
ghost use Rattle.ax_walk.specs.Placing.{HoldsValue, IsPlaced, placed_entries};
ghost use Rattle.ax_walk.specs.Shown.{item_value, IsOfSlot};
ghost use Rattle.ax_walk.specs.Spots.{IsSpot};

use crate::item::ItemView;
use crate::places::{FoundItem, PlacedSlots, Window};
use crate::spot::{Spot, fixed_number, spot_of};
use ax_format::Place;
use ax_fspec::Presence;

impl<'v, 'c, 'a> PlacedSlots<'v, 'c, 'a> {
    /// The marked slots.
    #[inline(always)]
    pub fn marked(&self) -> Presence
        ensures { result ≡ self.now.places.now.marked }
    {
        self.places.marked
    }

    /// Where the value of a slot stands, without a walk. None comes exactly where it isn't marked.
    #[inline(always)]
    pub fn place(&self, slot: u32) -> Option<Window>
        requires placed { IsPlaced self.now }
        ensures value { option_map (placed_value self.now slot) result ≡ slot_value slot (placed_entries self.now) }
        ensures there { IfSome result (HoldsValue self.now.codec.now.nodes self.now.slots.now self.now.body.now slot) }
    {
        if !self.places.marked.has(slot) {
            return None;
        }
        Some(self.places.windows[slot as usize])
    }

    /// Whether a slot is marked.
    #[inline(always)]
    pub fn has(&self, slot: u32) -> bool
        requires placed { IsPlaced self.now }
        ensures { result ≡ is_some (slot_value slot (placed_entries self.now)) }
    {
        self.places.marked.has(slot)
    }

    /// The item of a slot, without a walk. None comes exactly where it isn't marked.
    #[inline(always)]
    pub fn item(&self, slot: u32) -> Option<FoundItem<'c, 'a>>
        requires placed { IsPlaced self.now }
        ensures value { option_map (λ found. item_value found.item) result ≡ slot_value slot (placed_entries self.now) }
        ensures place { IfSome result (λ found. IsOfSlot self.now.codec.now self.now.slots.now slot found.item) }
    {
        if !self.places.marked.has(slot) {
            return None;
        }
        let window = self.places.windows[slot as usize];
        let item = ItemView {
            codec: self.codec,
            link: self.slots[slot as usize - 1],
            by_fx: false,
            body: &self.body[window.start as usize..window.end as usize],
        };
        Some(FoundItem {
            item,
            least: window.least,
        })
    }

    /// What stands at a place of the record.
    #[inline(always)]
    fn spot(&self, place: &Place) -> Spot<'a>
        requires placed { IsPlaced self.now }
        ensures { IsSpot self.now.codec.now.nodes result (value_at (place.now.frn ∷ place.now.steps) (marked (placed_entries self.now))) }
    {
        match self.item(place.frn) {
            Some(found) => spot_of(&found.item, place.steps.as_slice()),
            None => Spot::Missing,
        }
    }

    /// Whether something stands at a place of the record: its item is marked, and within it each slot and part that the
    /// steps lead through is there. The items before aren't walked over.
    #[inline]
    pub fn present(&self, place: &Place) -> bool
        requires placed { IsPlaced self.now }
        ensures { result ≡ is_present (placed_entries self.now) place.now }
    {
        !matches!(self.spot(place), Spot::Missing)
    }

    /// The number at a place of the record, without a walk over the items before. None comes exactly where none stands
    /// there: the place of an element isn't present.
    #[inline]
    pub fn number(&self, place: &Place) -> Option<u128>
        requires placed { IsPlaced self.now }
        ensures { result ≡ At (placed_entries self.now) place.now }
    {
        match self.spot(place) {
            Spot::Fixed { link, bit, octets } => {
                fixed_number(self.codec.nodes.as_slice(), link, bit, octets)
            }
            _ => None,
        }
    }
}
