//! The items of a UAP.
ghost use Rattle.std.specs.Prelude.{◌≡◌, ◌+◌, ◌<◌, length, map, IfOk};
ghost use Rattle.ax_format.specs.Plain.{spec_tree};
ghost use Rattle.ax_fspec.specs.Reading.{record_slot_list, slot_of_frn};
ghost use Rattle.ax_text_lines.specs.HeldText.{text_slot};

use crate::build::hold_kind;
use crate::drafting::StepsLeft;
use crate::held::{TextSlot, TextSlots};
use crate::named::TextNamed;
use ax_format::{Kind, Spec};
use std::alloc::{AllocError, Global};
use std::marker::Model;

/// The slots of a specification's UAP, each with what is held of its item: between two numbers what is printed is put together
/// once. Contracts see the specification.
pub struct TextItems<'s> {
    spec: &'s Spec,
    slots: TextSlots<'s>,
}

impl Drop for TextItems<'_> {
    fn drop(self) {
        let TextItems {
            spec: _spec,
            slots: _slots,
        } = self;
    }
}

impl<'s> Model for TextItems<'s> {
    ghost use Rattle.std.specs.Prelude.{◌≡◌, map};
    ghost use Rattle.ax_format.specs.Plain.{spec_tree};
    ghost use Rattle.ax_format.specs.contracts.spec.Spec as row;
    ghost use Rattle.ax_format.specs.declared.spec.Spec.{Spec};
    ghost use Rattle.ax_fspec.specs.Reading.{record_slot_list};
    ghost use Rattle.ax_text_lines.specs.HeldText.{text_slot};

    ghost Value = { Spec };

    ghost coded = { row.the_row.coded };

    ghost view = { λ items. items.spec.now };

    ghost invariant = { λ items. map text_slot items.slots ≡ record_slot_list (spec_tree items.spec.now) };
}

/// The slot of a field reference number, from 1: a spare one where the UAP has no such item.
fn hold_item<'s>(
    alloc: Global,
    left: &mut StepsLeft,
    spec: &'s Spec,
    frn: u32,
) -> Result<TextSlot<'s>, AllocError>
    ensures { IfOk result (λ made. text_slot made ≡ slot_of_frn frn spec.now) }
{
    let Some(item) = spec.slot(frn) else {
        return Ok(TextSlot::Spare);
    };
    match &item.kind {
        Kind::Fixed(fixed) => Ok(TextSlot::Named(TextNamed::of(alloc, left, &item.name, fixed))),
        kind => Ok(TextSlot::Sub {
            name: item.name,
            kind: hold_kind(alloc, left, kind)?,
        }),
    }
}

impl<'s> TextItems<'s> {
    /// The slots of the UAP of that specification. No more steps of templates are made than are left; past them values are
    /// printed member by member. Err is want of memory.
    pub fn of(
        alloc: Global,
        left: &mut StepsLeft,
        spec: &'s Spec,
    ) -> Result<TextItems<'s>, AllocError>
        ensures { IfOk result (λ made. made ≡ spec.now) }
    {
        let mut slots = TextSlots::new(alloc);
        for index in 0..spec.uap.count() {
            let slot = hold_item(alloc, left, spec, index + 1)?;
            slots.push(slot)?;
        }
        Ok(TextItems { spec, slots })
    }

    /// The specification.
    pub fn spec(&self) -> &'s Spec
        ensures { result.now ≡ self.now }
    {
        self.spec
    }

    /// The slots, in order.
    pub fn slots(&self) -> &TextSlots<'s>
        ensures { map text_slot result.now ≡ record_slot_list (spec_tree self.now) }
    {
        &self.slots
    }
}
