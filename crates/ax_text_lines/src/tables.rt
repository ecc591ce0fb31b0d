//! What the blocks of each category of a catalogue are read by.
ghost use Rattle.std.specs.Prelude.{◌≡◌, IfOk, length};
ghost use Rattle.ax_fspec.specs.Fields.{mask_slots};
ghost use Rattle.ax_format.specs.OfCode.{HasNoFlaw};
ghost use Rattle.ax_format.specs.Plain.{spec_tree};
ghost use Rattle.ax_format.specs.Tree.{slots_of, defined_slots};
ghost use Rattle.ax_fspec.specs.Reading.{record_slot_list};

use crate::drafting::StepsLeft;
use crate::items::TextItems;
use ax_check::{Accepted, Catalogue};
use ax_format::Spec;
use ax_fspec::SlotMask;
use ax_uap::{ByCategory, OfSpec};
use ax_values::record_mask;
use std::alloc::{AllocError, Global};

/// What the blocks of a category are printed by: what is held of the items of its UAP, and the mask of the UAP's slots.
pub struct PrintedUap<'c> {
    pub items: TextItems<'c>,
    pub mask: SlotMask,
    ghost count: { mask.count ≡ length (record_slot_list (spec_tree items)) },
    ghost defined: { mask_slots mask ≡ defined_slots (slots_of (record_slot_list (spec_tree items))) },
}

impl Drop for PrintedUap<'_> {
    fn drop(self) {
        let PrintedUap {
            items: _items,
            mask: _mask,
        } = self;
    }
}

/// Tables, by category.
pub type PrintedUaps<'c> = ByCategory<PrintedUap<'c>>;

impl<'c> OfSpec for PrintedUap<'c> {
    ghost of = { λ table. table.items };

    fn spec(&self) -> &Spec {
        self.items.spec()
    }
}

/// The table of a specification, with no more steps of templates than are left.
#[tactic(auto, using(ax_fspec::proofs::RecordSlots::uap_bounds))]
fn table_of<'c>(
    alloc: Global,
    left: &mut StepsLeft,
    accepted: &'c Accepted,
) -> Result<PrintedUap<'c>, AllocError>
    ensures spec { IfOk result (λ table. table.items ≡ accepted.now) }
    ensures no_flaw { IfOk result (λ table. HasNoFlaw table.items) }
{
    let spec = accepted.spec();
    let mask = record_mask(spec);
    let items = TextItems::of(alloc, left, spec)?;
    Ok(PrintedUap { items, mask })
}

/// A table for each specification of the catalogue and for no other, in the catalogue's order.
#[tactic(auto, using(ax_uap::proofs::Categories::collecting))]
pub fn tables_of<'c>(alloc: Global, catalogue: &'c Catalogue) -> Result<PrintedUaps<'c>, AllocError>
    ensures { IfOk result (λ made. made ≡ catalogue.now) }
{
    let mut left = StepsLeft::all();
    let mut tables = PrintedUaps::new(alloc);
    for index in 0..catalogue.count() {
        if let Some(accepted) = catalogue.at(index) {
            tables.push(table_of(alloc, &mut left, accepted)?)?;
        }
    }
    Ok(tables)
}
