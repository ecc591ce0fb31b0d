//! The items of a UAP.
ghost use Rattle.std.specs.Prelude.{◌≡◌, ◌+◌, ◌<◌, length, map, IfOk};
ghost use Rattle.ax_format.specs.Flaws.{NoFlaw};
ghost use Rattle.ax_format.specs.Plain.{spec_tree};
ghost use Rattle.ax_fspec.specs.Reading.{record_slot_list, slot_of_frn};
ghost use Rattle.ax_held_kinds.specs.Held.{held_slot};

use crate::build::hold_kind;
use crate::kinds::{HeldSlot, HeldSlots};
use crate::lines::LineMaker;
use crate::sizes::least_octets;
use ax_format::Spec;
use std::alloc::{AllocError, Global};
use std::marker::Model;

/// The slots of a specification's UAP, each with what is held of its item. Contracts see the specification.
pub struct HeldItems<'s> {
    spec: &'s Spec,
    slots: HeldSlots<'s>,
}

impl Drop for HeldItems<'_> {
    fn drop(self) {
        let HeldItems {
            spec: _spec,
            slots: _slots,
        } = self;
    }
}

impl<'s> Model for HeldItems<'s> {
    ghost use Rattle.std.specs.Prelude.{◌≡◌, map};
    ghost use Rattle.ax_held_kinds.specs.Held.{held_slot};
    ghost use Rattle.ax_format.specs.Plain.{spec_tree};
    ghost use Rattle.ax_format.specs.contracts.spec.Spec as row;
    ghost use Rattle.ax_format.specs.declared.spec.Spec.{Spec};
    ghost use Rattle.ax_fspec.specs.Reading.{record_slot_list};

    ghost Value = { Spec };

    ghost coded = { row.the_row.coded };

    ghost view = { λ items. items.spec.now };

    ghost invariant = { λ items. map held_slot items.slots ≡ record_slot_list (spec_tree items.spec.now) };
}

/// The slot of a field reference number, from 1: a spare one where the UAP has no such item.
fn hold_item<'s>(
    alloc: Global,
    maker: &mut LineMaker,
    spec: &'s Spec,
    frn: u32,
) -> Result<HeldSlot<'s>, AllocError>
    ensures { IfOk result (λ made. held_slot made ≡ slot_of_frn frn spec.now) }
{
    match spec.slot(frn) {
        None => Ok(HeldSlot::Spare),
        Some(item) => Ok(HeldSlot::Sub {
            name: item.name,
            kind: hold_kind(alloc, maker, &item.kind)?,
        }),
    }
}

impl<'s> HeldItems<'s> {
    /// The slots of the UAP of that specification, with the lines that the maker makes. Err is want of memory.
    pub fn of(
        alloc: Global,
        maker: &mut LineMaker,
        spec: &'s Spec,
    ) -> Result<HeldItems<'s>, AllocError>
        ensures { IfOk result (λ made. made ≡ spec.now) }
    {
        maker.begin(least_octets(spec));
        let mut slots = HeldSlots::new(alloc);
        for index in 0..spec.uap.count() {
            let slot = hold_item(alloc, maker, spec, index + 1)?;
            slots.push(slot)?;
        }
        Ok(HeldItems { spec, slots })
    }

    /// The specification.
    pub fn spec(&self) -> &'s Spec
        ensures { result.now ≡ self.now }
    {
        self.spec
    }

    /// The slots, in order.
    pub fn slots(&self) -> &[HeldSlot<'s>]
        ensures { map held_slot result.now ≡ record_slot_list (spec_tree self.now) }
    {
        self.slots.as_slice()
    }
}
