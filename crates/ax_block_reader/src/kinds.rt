//! Values of kinds.
ghost use Rattle.std.specs.Prelude.{◌≡◌, ◌^◌, ◌<◌, ◌≤◌, length, OnOk};
ghost use Rattle.ax_format.specs.Plain.{kind_tree, slot_tree, slots_tree, value_tree, entries_tree};
ghost use Rattle.ax_format.specs.Shape.{Shape, EntriesShape};
ghost use Rattle.ax_format.specs.Widths.{counter_width};
ghost use Rattle.ax_text_form.specs.Readable.{Readable, SlotReadable, SlotsReadable};
ghost use Rattle.ax_block_reader.specs.Continuing.{Gives};
ghost use Rattle.ax_block_reader.specs.Languages.{kind_texts, entries_texts};
ghost use Rattle.ax_block_reader.specs.Readings.{GivesFewerThan};
ghost use Rattle.ax_block_reader.specs.Entries.{SlotNamed, GivesSlot};

use crate::extended::{parts_present, run_values};
use crate::fixed::fixed_value;
use crate::octets::explicit_value;
use ax_format::{Counter, Entries, Entry, Kind, Slot, Slots, Value, Values};
use ax_tokens::{Reader, Stopped};
use std::alloc::Global;

/// A value of a kind.
#[cycle(kind_value)]
#[tactic(auto, using(crate::proofs::KindWays::kind_ways))]
pub(crate) fn kind_value(
    alloc: Global,
    reader: &mut Reader<'_, '_>,
    kind: &Kind,
) -> Result<Value, Stopped>
    requires { Readable (kind_tree kind.now) }
    ensures gives { Gives value_tree (Shape (kind_tree kind.now)) (kind_texts (kind_tree kind.now)) result reader.old reader.new }
    ensures moves { OnOk result (length reader.new < length reader.old) }
{
    match kind {
        Kind::Fixed(fixed) => {
            let value = fixed_value(alloc, reader, fixed)?;
            Ok(value)
        }
        Kind::Explicit => {
            let value = explicit_value(alloc, reader)?;
            Ok(value)
        }
        Kind::Extended { parts, .. } => {
            reader.expect(b"{")?;
            let lists = parts_present(alloc, reader, parts)?;
            Ok(Value::Extended(lists))
        }
        Kind::Counted {
            counter: size,
            inner,
        } => {
            reader.expect(b"{")?;
            let values = counted_values(alloc, reader, *size, inner)?;
            Ok(Value::Repeat(values))
        }
        Kind::ByFx(fixed) => {
            reader.expect(b"{")?;
            let values = run_values(alloc, reader, fixed)?;
            Ok(Value::Repeat(values))
        }
        Kind::Compound(slots) => {
            reader.expect(b"{")?;
            let entries = subitems(alloc, reader, slots)?;
            Ok(Value::Compound(entries))
        }
    }
}

/// As many values of a kind as the counter can hold, or fewer, and the brace after them.
#[cycle(kind_value)]
fn counted_values(
    alloc: Global,
    reader: &mut Reader<'_, '_>,
    size: Counter,
    kind: &Kind,
) -> Result<Values, Stopped>
    requires { Readable (kind_tree kind.now) }
    ensures gives { GivesFewerThan (2 ^ counter_width size) (kind_tree kind.now) result reader.old reader.new }
    ensures moves { OnOk result (length reader.new < length reader.old) }
{
    let most = size.greatest();
    let mut values = Values::new(alloc);
    while values.count() < most {
        if reader.takes(b"}")? {
            return Ok(values);
        }
        let value = kind_value(alloc, reader, kind)?;
        values.push(value)?;
    }
    reader.expect(b"}")?;
    Ok(values)
}

/// The value of the slot's subitem, where the subitem's name comes. It doesn't where the slot is spare.
#[cycle(kind_value)]
#[tactic(auto, using(crate::proofs::KindWays::slot_ways))]
fn subitem(
    alloc: Global,
    reader: &mut Reader<'_, '_>,
    slot: &Slot,
) -> Result<Option<Value>, Stopped>
    requires { SlotReadable (slot_tree slot.now) }
    ensures gives { GivesSlot (slot_tree slot.now) result reader.old reader.new }
    ensures named { SlotNamed (slot_tree slot.now) }
    ensures moves { OnOk result (length reader.new ≤ length reader.old) }
{
    let Slot::Sub { name, kind } = slot else {
        return Ok(None);
    };
    if !reader.takes(name.octets())? {
        return Ok(None);
    }
    let value = kind_value(alloc, reader, kind)?;
    Ok(Some(value))
}

/// The entries of a compound, and the brace after them.
#[cycle(kind_value)]
#[tactic(auto, using(crate::proofs::EntryWays::entries_ways))]
fn subitems(alloc: Global, reader: &mut Reader<'_, '_>, slots: &Slots) -> Result<Entries, Stopped>
    requires { SlotsReadable (slots_tree slots.now) }
    ensures gives { Gives entries_tree (EntriesShape 1 (slots_tree slots.now)) (entries_texts 1 (slots_tree slots.now)) result reader.old reader.new }
    ensures moves { OnOk result (length reader.new < length reader.old) }
{
    let mut entries = Entries::new(alloc);
    let mut number = 0;
    for slot in slots.as_slice() {
        number += 1;
        let Some(value) = subitem(alloc, reader, slot)? else {
            continue;
        };
        entries.push(Entry {
            slot: number,
            value,
        })?;
    }
    reader.expect(b"}")?;
    Ok(entries)
}
