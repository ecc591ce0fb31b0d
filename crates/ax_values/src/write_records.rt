//! Records written over the items of a UAP.
ghost use Rattle.std.specs.Prelude.{◌≡◌, ◌≤◌, length};
ghost use Rattle.std.specs.List.{AllByRecursion};
ghost use Rattle.ax_bits.specs.Out.{Appends, room};
ghost use Rattle.ax_format.specs.Bodies.{RecordShape, CanonRecord, CanonBody};
ghost use Rattle.ax_format.specs.Canonical.{entries_canon};
ghost use Rattle.ax_format.specs.Flaws.{NoFlaw};
ghost use Rattle.ax_format.specs.Plain.{spec_tree, value_tree, entries_tree, record_tree, records_tree};
ghost use Rattle.ax_format.specs.Specification.{record_slots};
ghost use Rattle.ax_values.specs.Writing.{EntryShape, entry_canon, AreEntriesOf, item_kind};

use crate::marks::entry_marks;
use crate::write_kinds::write_value;
use ax_bits::Out;
use ax_format::{Entries, Entry, Record, Records};
use ax_fspec::write_presence;
use ax_uap::UapItems;

/// Appends the canonical spellings of records, in order.
pub(crate) fn write_body(records: &Records, items: &UapItems<'_>, out: &mut Out<'_>)
    requires spec { NoFlaw (spec_tree items.now.spec.now) }
    requires shape { AllByRecursion (RecordShape (spec_tree items.now.spec.now)) (records_tree records.now) }
    requires room { length (CanonBody (spec_tree items.now.spec.now) (records_tree records.now)) ≤ room out.old }
    ensures { Appends out.old out.new (CanonBody (spec_tree items.now.spec.now) (records_tree records.now)) }
{
    for one in records.as_slice() {
        write_record(one, items, out);
    }
}

/// Appends the entries of a record, with the least FSPEC in front.
fn write_record(one: &Record, items: &UapItems<'_>, out: &mut Out<'_>)
    requires entries { AreEntriesOf (record_slots (spec_tree items.now.spec.now)) (record_tree one.now) }
    requires room { length (CanonRecord (spec_tree items.now.spec.now) (record_tree one.now)) ≤ room out.old }
    ensures { Appends out.old out.new (CanonRecord (spec_tree items.now.spec.now) (record_tree one.now)) }
{
    write_presence(&entry_marks(&one.entries), out);
    write_items(&one.entries, items, out);
}

fn write_items(entries: &Entries, items: &UapItems<'_>, out: &mut Out<'_>)
    requires entries { AreEntriesOf (record_slots (spec_tree items.now.spec.now)) (entries_tree entries.now) }
    requires room { length (entries_canon 1 (record_slots (spec_tree items.now.spec.now)) (entries_tree entries.now)) ≤ room out.old }
    ensures { Appends out.old out.new (entries_canon 1 (record_slots (spec_tree items.now.spec.now)) (entries_tree entries.now)) }
{
    for entry in entries.as_slice() {
        write_item(entry, items, out);
    }
}

fn write_item(entry: &Entry, items: &UapItems<'_>, out: &mut Out<'_>)
    requires shape { EntryShape (item_kind items.now.spec.now entry.now.slot) (value_tree entry.now.value) }
    requires room { length (entry_canon (item_kind items.now.spec.now entry.now.slot) (value_tree entry.now.value)) ≤ room out.old }
    ensures { Appends out.old out.new (entry_canon (item_kind items.now.spec.now entry.now.slot) (value_tree entry.now.value)) }
{
    if let Some(item) = items.item(entry.slot) {
        write_value(&entry.value, &item.kind, out);
    }
}
