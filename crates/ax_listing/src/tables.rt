//! What the blocks of each category of a catalogue are listed by.
ghost use Rattle.std.specs.Prelude.{◌≡◌, IfOk, length};
ghost use Rattle.ax_fspec.specs.Fields.{mask_slots};
ghost use Rattle.ax_format.specs.OfCode.{HasNoFlaw};
ghost use Rattle.ax_format.specs.Plain.{spec_tree};
ghost use Rattle.ax_format.specs.Tree.{slots_of, defined_slots};
ghost use Rattle.ax_fspec.specs.Reading.{record_slot_list};

use ax_check::{Accepted, Catalogue};
use ax_format::Spec;
use ax_fspec::SlotMask;
use ax_held_kinds::{HeldItems, LineMaker};
use ax_uap::{ByCategory, OfSpec};
use ax_values::record_mask;
use std::alloc::{AllocError, Global};

/// What the blocks of a category are listed by: what is held of the items of its UAP, and the mask of the UAP's slots.
pub(crate) struct ListedUap<'c> {
    pub(crate) items: HeldItems<'c>,
    pub(crate) mask: SlotMask,
    ghost count: { mask.count ≡ length (record_slot_list (spec_tree items)) },
    ghost defined: { mask_slots mask ≡ defined_slots (slots_of (record_slot_list (spec_tree items))) },
}

impl Drop for ListedUap<'_> {
    fn drop(self) {
        let ListedUap {
            items: _items,
            mask: _mask,
        } = self;
    }
}

/// Tables, by category.
pub(crate) type ListedUaps<'c> = ByCategory<ListedUap<'c>>;

impl<'c> OfSpec for ListedUap<'c> {
    ghost of = { λ table. table.items };

    fn spec(&self) -> &Spec {
        self.items.spec()
    }
}

/// The table of a specification, with the lines that the maker makes.
#[tactic(auto, using(ax_fspec::proofs::RecordSlots::uap_bounds))]
fn table_of<'c>(
    alloc: Global,
    maker: &mut LineMaker,
    accepted: &'c Accepted,
) -> Result<ListedUap<'c>, AllocError>
    ensures spec { IfOk result (λ table. table.items ≡ accepted.now) }
    ensures no_flaw { IfOk result (λ table. HasNoFlaw table.items) }
{
    let spec = accepted.spec();
    let mask = record_mask(spec);
    let items = HeldItems::of(alloc, maker, spec)?;
    Ok(ListedUap { items, mask })
}

/// A table for each specification of the catalogue and for no other, in the catalogue's order.
#[tactic(auto, using(ax_uap::proofs::Categories::collecting))]
pub(crate) fn tables_of<'c>(
    alloc: Global,
    catalogue: &'c Catalogue,
) -> Result<ListedUaps<'c>, AllocError>
    ensures { IfOk result (λ made. made ≡ catalogue.now) }
{
    let mut maker = LineMaker::new(alloc);
    let mut tables = ListedUaps::new(alloc);
    for index in 0..catalogue.count() {
        if let Some(accepted) = catalogue.at(index) {
            tables.push(table_of(alloc, &mut maker, accepted)?)?;
        }
    }
    Ok(tables)
}
