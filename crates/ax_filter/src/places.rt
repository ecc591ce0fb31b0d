//! Records of which a filter asks what stands at their places.
ghost use Rattle.std.specs.Prelude.{◌≡◌};
ghost use Rattle.ax_format.specs.At.{is_present, At};
ghost use Rattle.ax_format.specs.Plain.{record_tree};
ghost use Rattle.ax_format.specs.Tree.{EntriesTree};
ghost use Rattle.ax_walk.specs.Placing.{IsPlaced, placed_entries};
ghost use Rattle.ax_walk.specs.Shown.{record_entries};

use crate::standing;
use ax_format::{Place, Record};
use ax_walk::{PlacedSlots, RecordView};

/// A record, as far as a filter asks for it. Nothing here takes memory.
pub trait HasPlaces {
    // The record's entries.
    ghost entries: { Self → EntriesTree };

    // What has to hold for it to be asked.
    ghost sound: { Self → Type 0 };

    /// Whether something stands at the place.
    fn has(&self, place: &Place) -> bool
        requires { sound self.now }
        ensures { result ≡ is_present (entries self.now) place.now };

    /// The number that stands at the place, if it is one.
    fn number_at(&self, place: &Place) -> Option<u128>
        requires { sound self.now }
        ensures { result ≡ At (entries self.now) place.now };
}

impl HasPlaces for Record {
    ghost entries = { λ one. record_tree one };

    ghost sound = { λ one. Unit {0} };

    fn has(&self, place: &Place) -> bool {
        standing::is_present(self, place)
    }

    fn number_at(&self, place: &Place) -> Option<u128> {
        standing::number_at(self, place)
    }
}

impl HasPlaces for RecordView<'_, '_> {
    ghost entries = { λ one. record_entries one };

    ghost sound = { λ one. Unit {0} };

    #[inline]
    fn has(&self, place: &Place) -> bool {
        self.present(place)
    }

    #[inline(always)]
    fn number_at(&self, place: &Place) -> Option<u128> {
        self.number(place)
    }
}

impl HasPlaces for PlacedSlots<'_, '_, '_> {
    ghost entries = { λ one. placed_entries one };

    ghost sound = { λ one. IsPlaced one };

    #[inline]
    fn has(&self, place: &Place) -> bool {
        PlacedSlots::present(self, place)
    }

    #[inline]
    fn number_at(&self, place: &Place) -> Option<u128> {
        self.number(place)
    }
}
