//! Records and lists of them.
ghost use Rattle.std.specs.Prelude.{◌≡◌, ◌<◌, ◌≤◌, [], length, map, Some, IfOk, IfErr, OnOk};
ghost use Rattle.ax_format.specs.Lookup.{item_of_frn, item_of_slot};
ghost use Rattle.ax_format.specs.Plain.{item_tree, spec_tree};
ghost use Rattle.ax_format.specs.Specification.{uap_slot, record_slots};
ghost use Rattle.ax_tokens.specs.declared.stopped.Stopped.TheVariants.{Bad};
ghost use Rattle.ax_text_form.specs.Readable.{SlotReadable, SlotsReadable};
ghost use Rattle.ax_block_reader.specs.Entries.{SlotNamed, ReadsName, GivesSlot};
ghost use Rattle.ax_block_reader.specs.Readings.{GivesEntries, GivesBracedEntries, GivesRecord, GivesRecords, GivesBracedRecords};

use crate::kinds::kind_value;
use ax_format::{Entries, Entry, Item, Record, Records, UapSlot, Value};
use ax_tokens::{Reader, Stopped};
use ax_uap::UapItems;
use std::alloc::Global;

/// The item of a slot of the UAP, which has that field reference number, where its name comes. The name is read if so.
#[tactic(auto, using(crate::proofs::RecordWays::item_steps))]
fn item_that_comes<'s>(
    reader: &mut Reader<'_, '_>,
    items: &UapItems<'s>,
    frn: u32,
    slot: &UapSlot,
) -> Result<Option<&'s Item>, Stopped>
    requires { item_of_frn frn items.now.spec.now.uap items.now.spec.now.items ≡ item_of_slot (Some slot.now) items.now.spec.now.items }
    ensures found { IfOk result (λ found. ReadsName (uap_slot (map item_tree items.now.spec.now.items) slot.now) found reader.old reader.new) }
    ensures end { IfErr result (λ e. (e ≡ Bad) × (reader.old ≡ []) × (reader.new ≡ [])) }
    ensures named { SlotNamed (uap_slot (map item_tree items.now.spec.now.items) slot.now) }
{
    let UapSlot::Item(name) = slot else {
        return Ok(None);
    };
    let wanted = name.octets();
    let token = reader.peek()?;
    if token.text != wanted {
        return Ok(None);
    }
    let Some(item) = items.item(frn) else {
        return Ok(None);
    };
    reader.skip();
    Ok(Some(item))
}

/// The value of the slot's item, where the item's name comes. It doesn't where the slot is spare.
#[tactic(auto, using(crate::proofs::RecordWays::value_steps))]
fn item_value(
    alloc: Global,
    reader: &mut Reader<'_, '_>,
    items: &UapItems<'_>,
    frn: u32,
    slot: &UapSlot,
) -> Result<Option<Value>, Stopped>
    requires readable { SlotReadable (uap_slot (map item_tree items.now.spec.now.items) slot.now) }
    requires at { item_of_frn frn items.now.spec.now.uap items.now.spec.now.items ≡ item_of_slot (Some slot.now) items.now.spec.now.items }
    ensures gives { GivesSlot (uap_slot (map item_tree items.now.spec.now.items) slot.now) result reader.old reader.new }
    ensures named { SlotNamed (uap_slot (map item_tree items.now.spec.now.items) slot.now) }
    ensures moves { OnOk result (length reader.new ≤ length reader.old) }
{
    let Some(item) = item_that_comes(reader, items, frn, slot)? else {
        return Ok(None);
    };
    let value = kind_value(alloc, reader, &item.kind)?;
    Ok(Some(value))
}

/// The entries of a record, and the brace after them.
#[tactic(auto, using(crate::proofs::EntryWays::entries_ways))]
fn record_entries(
    alloc: Global,
    reader: &mut Reader<'_, '_>,
    items: &UapItems<'_>,
) -> Result<Entries, Stopped>
    requires { SlotsReadable (record_slots (spec_tree items.now.spec.now)) }
    ensures gives { GivesEntries (spec_tree items.now.spec.now) result reader.old reader.new }
    ensures moves { OnOk result (length reader.new < length reader.old) }
{
    let spec = items.spec();
    let mut entries = Entries::with_capacity(alloc, spec.uap.count())?;
    let mut number = 0;
    for slot in spec.uap.as_slice() {
        number += 1;
        let Some(value) = item_value(alloc, reader, items, number, slot)? else {
            continue;
        };
        entries.push(Entry {
            slot: number,
            value,
        })?;
    }
    reader.expect(b"}")?;
    Ok(entries)
}

/// The entries of a record in braces.
fn braced_entries(
    alloc: Global,
    reader: &mut Reader<'_, '_>,
    items: &UapItems<'_>,
) -> Result<Entries, Stopped>
    requires { SlotsReadable (record_slots (spec_tree items.now.spec.now)) }
    ensures gives { GivesBracedEntries (spec_tree items.now.spec.now) result reader.old reader.new }
    ensures moves { OnOk result (length reader.new < length reader.old) }
{
    reader.expect(b"{")?;
    record_entries(alloc, reader, items)
}

/// A record: `record` and its entries in braces.
#[tactic(auto, using(crate::proofs::RecordWays::record_ways))]
fn record(
    alloc: Global,
    reader: &mut Reader<'_, '_>,
    items: &UapItems<'_>,
) -> Result<Record, Stopped>
    requires { SlotsReadable (record_slots (spec_tree items.now.spec.now)) }
    ensures gives { GivesRecord (spec_tree items.now.spec.now) result reader.old reader.new }
    ensures moves { OnOk result (length reader.new < length reader.old) }
{
    reader.expect(b"record")?;
    let entries = braced_entries(alloc, reader, items)?;
    Ok(Record { entries })
}

/// One or more records, and the brace after them.
#[tactic(auto, using(crate::proofs::RecordListWays::records_ways))]
fn records(
    alloc: Global,
    reader: &mut Reader<'_, '_>,
    items: &UapItems<'_>,
) -> Result<Records, Stopped>
    requires readable { SlotsReadable (record_slots (spec_tree items.now.spec.now)) }
    requires bound { length reader.old < 4294967296 }
    ensures gives { GivesRecords (spec_tree items.now.spec.now) result reader.old reader.new }
    ensures moves { OnOk result (length reader.new < length reader.old) }
{
    let mut made = Records::new(alloc);
    loop {
        let one = record(alloc, reader, items)?;
        made.push(one)?;
        if reader.takes(b"}")? {
            return Ok(made);
        }
    }
}

/// One or more records in braces.
pub(crate) fn braced_records(
    alloc: Global,
    reader: &mut Reader<'_, '_>,
    items: &UapItems<'_>,
) -> Result<Records, Stopped>
    requires { SlotsReadable (record_slots (spec_tree items.now.spec.now)) }
    ensures gives { GivesBracedRecords (spec_tree items.now.spec.now) result reader.old reader.new }
    ensures moves { OnOk result (length reader.new < length reader.old) }
{
    reader.expect(b"{")?;
    records(alloc, reader, items)
}
