ghost use Rattle.std.specs.Prelude.{◌≡◌, IfOk, map};
ghost use Rattle.ax_format.specs.Plain.{item_tree, spec_tree};

use super::push_copy;
use crate::place::Place;
use crate::spec::{Item, Items, Spec, UapSlot, UapSlots};
use std::alloc::{AllocError, Global};

impl Item {
    /// A copy, which has the same tree.
    pub fn copy(&self, alloc: Global) -> Result<Item, AllocError>
        ensures { IfOk result (λ made. item_tree made ≡ item_tree self.now) }
    {
        Ok(Item {
            name: self.name,
            title: self.title.copy(alloc)?,
            kind: self.kind.copy(alloc)?,
        })
    }
}

fn copy_items(alloc: Global, items: &Items) -> Result<Items, AllocError>
    ensures { IfOk result (λ made. map item_tree made ≡ map item_tree items.now) }
{
    let mut made = Items::new(alloc);
    for item in items.as_slice() {
        push_copy(&mut made, item.copy(alloc))?;
    }
    Ok(made)
}

impl UapSlot {
    /// The same slot. Takes no memory.
    pub fn copy(&self) -> UapSlot
        ensures { result ≡ self.now }
    {
        match self {
            UapSlot::Spare => UapSlot::Spare,
            UapSlot::Item(name) => UapSlot::Item(*name),
        }
    }
}

fn copy_uap(alloc: Global, slots: &UapSlots) -> Result<UapSlots, AllocError>
    ensures { IfOk result (λ made. made ≡ slots.now) }
{
    let mut made = UapSlots::new(alloc);
    for slot in slots.as_slice() {
        made.push(slot.copy())?;
    }
    Ok(made)
}

impl Spec {
    /// A copy, which has the same tree.
    pub fn copy(&self, alloc: Global) -> Result<Spec, AllocError>
        ensures { IfOk result (λ made. spec_tree made ≡ spec_tree self.now) }
    {
        Ok(Spec {
            category: self.category,
            edition: self.edition.copy(alloc)?,
            items: copy_items(alloc, &self.items)?,
            uap: copy_uap(alloc, &self.uap)?,
        })
    }
}

impl Place {
    /// A copy, which equals the original.
    pub fn copy(&self, alloc: Global) -> Result<Place, AllocError>
        ensures { IfOk result (λ made. made ≡ self.now) }
    {
        Ok(Place {
            frn: self.frn,
            steps: self.steps.copy(alloc)?,
        })
    }
}
