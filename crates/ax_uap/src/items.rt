//! The items of a UAP by field reference number.
ghost use Rattle.std.specs.Prelude.{◌≡◌, IfOk};
ghost use Rattle.std.specs.Option.{option_copied};
ghost use Rattle.ax_format.specs.Lookup.{item_of_frn};
ghost use Rattle.ax_format.specs.declared.spec.UapSlot.TheVariants as Uap;
ghost use Rattle.ax_uap.specs.Places.{place_of_slot, uap_places};

use ax_format::{Item, Name, Spec, UapSlot};
use std::alloc::{AllocError, Global};

/// The items of a specification's UAP. Where each slot's item stands among the items is found once, when this is made, so
/// that no record looks a name up.
pub struct UapItems<'s> {
    spec: &'s Spec,
    /// Of each slot the place of its item among the items, from 0; their number where there is none.
    places: Vec<u32>,
    ghost found: { places.items ≡ uap_places spec.now.uap spec.now.items },
}

impl Drop for UapItems<'_> {
    fn drop(self) {
        let UapItems {
            spec: _spec,
            places: _places,
        } = self;
    }
}

/// The place of the first item of a name, from 0; the number of items where there is none.
fn place_of_name(spec: &Spec, name: &Name) -> u32
    ensures { result ≡ place_of_slot spec.now.items (Uap.Item name.now) }
{
    let mut place = 0;
    for item in spec.items.as_slice() {
        if item.name == *name {
            break;
        }
        place += 1;
    }
    place
}

/// The place of the item of a slot, from 0; the number of items where there is none.
fn place_of(spec: &Spec, slot: &UapSlot) -> u32
    ensures { result ≡ place_of_slot spec.now.items slot.now }
{
    match slot {
        UapSlot::Spare => spec.items.count(),
        UapSlot::Item(name) => place_of_name(spec, name),
    }
}

/// The places of the items of all slots, in order.
fn places_of(alloc: Global, spec: &Spec) -> Result<Vec<u32>, AllocError>
    ensures { IfOk result (λ made. made.items ≡ uap_places spec.now.uap spec.now.items) }
{
    spec.uap
        .as_slice()
        .iter()
        .map(|slot| place_of(spec, slot))
        .collect::<Vec<u32>>(alloc)
}

impl<'s> UapItems<'s> {
    /// The items of the UAP of that specification. Err is want of memory.
    pub fn of(alloc: Global, spec: &'s Spec) -> Result<UapItems<'s>, AllocError>
        ensures { IfOk result (λ made. made.spec.now ≡ spec.now) }
    {
        let places = places_of(alloc, spec)?;
        Ok(UapItems { spec, places })
    }

    /// The specification.
    pub fn spec(&self) -> &'s Spec
        ensures { result.now ≡ self.now.spec.now }
    {
        self.spec
    }

    /// The item of a field reference number, from 1, as `Spec::slot` gives it, found without a look at the other items. None
    /// comes exactly where the UAP has no such slot, where the slot is spare, and where no item has its name.
    pub fn item(&self, frn: u32) -> Option<&'s Item>
        ensures { option_copied result ≡ item_of_frn frn self.now.spec.now.uap self.now.spec.now.items }
    {
        if frn == 0 || frn as usize > self.places.len() {
            return None;
        }
        self.spec.items.get(self.places[frn as usize - 1])
    }
}
