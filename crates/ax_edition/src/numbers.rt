//! Numbers by name. Lists are gone through from their last member on, so that the number of the first of a name stays.
ghost use Rattle.std.specs.Prelude.{◌≡◌, ℕ, List, None, OnOk, IfOk};
ghost use Rattle.ax_format.specs.Plain.{slots_tree};
ghost use Rattle.ax_edition.specs.Numbers.{numbered, Enters, Counts, CountsItems};
ghost use Rattle.ax_edition.specs.SlotItems.{items_tree};

use crate::record_items::SlotItems;
use ax_format::{Items, Name, Slot, Slots};
use indexmap::IndexMap;
use std::alloc::{AllocError, Global};

/// A number for each of some names.
pub(crate) struct Numbers {
    numbers: IndexMap<Name, u32>,
}

impl Drop for Numbers {
    fn drop(self) {
        let Numbers { numbers: _numbers } = self;
    }
}

impl Numbers {
    /// No name. Takes no memory.
    pub(crate) fn new(alloc: Global) -> Numbers
        ensures { (name : List ℕ) → numbered result name ≡ None }
    {
        Numbers {
            numbers: IndexMap::new(alloc),
        }
    }

    /// Gives the number to the name, in place of what it had.
    fn enter(&mut self, name: &Name, number: u32) -> Result<(), AllocError>
        ensures { OnOk result (Enters name.now number self.old self.new) }
    {
        self.numbers.insert(*name, number)?;
        Ok(())
    }

    /// The number of a name. Takes no memory.
    pub(crate) fn get(&self, name: &Name) -> Option<u32>
        ensures { result ≡ numbered self.now name.now }
    {
        self.numbers.get(name).copied()
    }
}

/// The number of the first slot of each name, from 1.
pub(crate) fn number_slots(alloc: Global, slots: &Slots) -> Result<Numbers, AllocError>
    ensures { IfOk result (λ numbers. Counts 1 (slots_tree slots.now) numbers) }
{
    let mut numbers = Numbers::new(alloc);
    let slots = slots.as_slice();
    for place in (0..slots.len()).rev() {
        if let Slot::Sub { name, .. } = &slots[place] {
            numbers.enter(name, place as u32 + 1)?;
        }
    }
    Ok(numbers)
}

/// The number of the first slot of the UAP whose item has a name, from 1.
pub(crate) fn number_slot_items(alloc: Global, items: &SlotItems<'_>) -> Result<Numbers, AllocError>
    ensures { IfOk result (λ numbers. Counts 1 (items_tree items.now) numbers) }
{
    let mut numbers = Numbers::new(alloc);
    let items = items.as_slice();
    for place in (0..items.len()).rev() {
        if let Some(item) = items[place] {
            numbers.enter(&item.name, place as u32 + 1)?;
        }
    }
    Ok(numbers)
}

/// The number of the first item of each name, from 1.
pub(crate) fn number_items(alloc: Global, items: &Items) -> Result<Numbers, AllocError>
    ensures { IfOk result (λ numbers. CountsItems 1 items.now numbers) }
{
    let mut numbers = Numbers::new(alloc);
    let items = items.as_slice();
    for place in (0..items.len()).rev() {
        numbers.enter(&items[place].name, place as u32 + 1)?;
    }
    Ok(numbers)
}
