//! The lines of records.
ghost use Rattle.std.specs.Prelude.{OnOk};
ghost use Rattle.std.specs.List.{AllByRecursion};
ghost use Rattle.ax_format.specs.Bodies.{RecordShape};
ghost use Rattle.ax_format.specs.Plain.{spec_tree, value_tree, entries_tree, record_tree, records_tree};
ghost use Rattle.ax_format.specs.Shape.{EntriesShape};
ghost use Rattle.ax_format.specs.Specification.{record_slots};
ghost use Rattle.ax_text_form.specs.Listable.{SlotListable, SlotsListable};
ghost use Rattle.ax_text_form.specs.Printing.{PutsLines};
ghost use Rattle.ax_text_form.specs.ShowText.{entries_lines, record_lines, records_lines};
ghost use Rattle.ax_text_form.specs.Slots.{slot_numbered, SlotShape};
ghost use Rattle.ax_text.specs.EntryLines.{entry_lines};

use crate::kinds::list_kind;
use crate::paths::path_under;
use ax_format::{Entries, Entry, Record, Records, Spec, category_digits};
use ax_octets::LinePath;
use ax_text_form::Lister;
use std::alloc::AllocError;

/// Records, numbered from 0.
#[tactic(auto, using(crate::proofs::ListedRecords::records_ways))]
pub(crate) fn list_records(
    lister: &mut Lister,
    records: &Records,
    spec: &Spec,
) -> Result<(), AllocError>
    requires listable { SlotsListable (record_slots (spec_tree spec.now)) }
    requires shape { AllByRecursion (RecordShape (spec_tree spec.now)) (records_tree records.now) }
    ensures { OnOk result (PutsLines (records_lines (spec_tree spec.now) 0 (records_tree records.now)) lister.old lister.new) }
{
    let mut number: u32 = 0;
    for one in records.as_slice() {
        list_record(lister, one, number, spec)?;
        number += 1;
    }
    Ok(())
}

/// A record of that number.
#[tactic(auto, using(crate::proofs::ListedRecords::record_ways))]
fn list_record(
    lister: &mut Lister,
    one: &Record,
    number: u32,
    spec: &Spec,
) -> Result<(), AllocError>
    requires listable { SlotsListable (record_slots (spec_tree spec.now)) }
    requires shape { RecordShape (spec_tree spec.now) (record_tree one.now) }
    ensures { OnOk result (PutsLines (record_lines (spec_tree spec.now) number (record_tree one.now)) lister.old lister.new) }
{
    lister.record_front(number)?;
    let mut path = lister.blank_path();
    path.set(&category_digits(spec.category));
    list_items(lister, &one.entries, spec, &path)
}

/// The entries of a record, under the path of its category.
#[tactic(auto, using(crate::proofs::ListedValues::entries_ways))]
fn list_items(
    lister: &mut Lister,
    entries: &Entries,
    spec: &Spec,
    path: &LinePath,
) -> Result<(), AllocError>
    requires listable { SlotsListable (record_slots (spec_tree spec.now)) }
    requires shape { EntriesShape 1 (record_slots (spec_tree spec.now)) (entries_tree entries.now) }
    ensures { OnOk result (PutsLines (entries_lines path.now 1 (record_slots (spec_tree spec.now)) (entries_tree entries.now)) lister.old lister.new) }
{
    for entry in entries.as_slice() {
        list_item(lister, entry, spec, path)?;
    }
    Ok(())
}

#[tactic(auto, using(crate::proofs::ListedRecords::item_ways))]
fn list_item(
    lister: &mut Lister,
    entry: &Entry,
    spec: &Spec,
    path: &LinePath,
) -> Result<(), AllocError>
    requires listable { SlotListable (slot_numbered (record_slots (spec_tree spec.now)) entry.now.slot) }
    requires shape { SlotShape (slot_numbered (record_slots (spec_tree spec.now)) entry.now.slot) (value_tree entry.now.value) }
    ensures { OnOk result (PutsLines (entry_lines path.now (record_slots (spec_tree spec.now)) entry.now) lister.old lister.new) }
{
    if let Some(item) = spec.slot(entry.slot) {
        let inner = path_under(lister, path, &item.name)?;
        list_kind(lister, &entry.value, &item.kind, &inner)?;
    }
    Ok(())
}
