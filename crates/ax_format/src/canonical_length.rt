//! How many octets the canonical form of a block has. Nothing here takes memory.
ghost use Rattle.std.specs.Prelude.{◌≡◌, ◌+◌, ◌*◌, ◌/◌, map, option_map};
ghost use Rattle.std.specs.Option.{option_copied};
ghost use Rattle.ax_format.specs.Lengths.{capped, octets, each_octets, entries_octets, octets_where, slot_kind, unit_octets, parts_octets, presence_octets, last_slot, record_octets, records_octets};
ghost use Rattle.ax_format.specs.OfCode.{BlockFits, HasNoFlaw, block_length};
ghost use Rattle.ax_format.specs.Plain.{fixed_tree, kind_tree, slot_tree, part_tree, spec_tree, slots_tree, value_tree, values_tree, lists_tree, entries_tree};
ghost use Rattle.ax_format.specs.Specification.{record_slots};
ghost use Rattle.ax_format.specs.Tree.{marked, compound, value_count};
ghost use Rattle.ax_format.specs.Widths.{width};

use crate::kind::{Fixed, Kind, LastPart, Part, Slots};
use crate::lookup::subitem_kind;
use crate::record::{Block, Record};
use crate::spec::Spec;
use crate::value::{Entries, Entry, Value, Values};

/// Whole octets of so many bits and so many FX bits.
fn unit_octets_of(width: u64, fx: u32) -> u64
    ensures { result ≡ capped (width + fx) / 8 }
{
    width.saturating_add(u64::from(fx)) / 8
}

/// The octets of the least presence field whose last marked slot has that number.
fn presence_octets_of(last: u32) -> u64
    ensures { result ≡ presence_octets last }
{
    (u64::from(last) + 6) / 7
}

/// The octets of the parts that are present.
fn octets_of_parts(last: LastPart, parts: &[Part], lists: &[Values]) -> u64
    ensures { result ≡ capped (parts_octets last (map part_tree parts.now) (lists_tree lists.now)) }
{
    let mut total: u64 = 0;
    let mut rest = lists;
    let mut others = parts.len();
    for part in parts {
        others -= 1;
        let Some((_values, later)) = rest.split_first() else {
            return total;
        };
        total = total.saturating_add(unit_octets_of(part.width(), last.fx_width(others)));
        rest = later;
    }
    total
}

/// The octets of occurrences of a fixed kind, each with its FX bit.
#[tactic(auto, using(crate::proofs::Counting::run_counted))]
fn octets_of_run(values: &Values, fixed: &Fixed) -> u64
    ensures { result ≡ capped (value_count (values_tree values.now) * unit_octets 1 (width (fixed_tree fixed.now))) }
{
    u64::from(values.count()).saturating_mul(unit_octets_of(fixed.width(), 1))
}

/// The octets of a value's canonical spelling under its kind, capped at 2^64 - 1. Takes no memory.
#[cycle(octets)]
pub fn octets_of(value: &Value, kind: &Kind) -> u64
    ensures { result ≡ capped (octets (value_tree value.now) (kind_tree kind.now)) }
{
    match (value, kind) {
        (_, Kind::Fixed(fixed)) => fixed.width() / 8,
        (Value::Extended(lists), Kind::Extended { last, parts }) => {
            octets_of_parts(*last, parts.as_slice(), lists.as_slice())
        }
        (Value::Repeat(values), Kind::Counted { counter, inner }) => {
            octets_of_each(values, inner).saturating_add(u64::from(counter.octets()))
        }
        (Value::Repeat(values), Kind::ByFx(fixed)) => { octets_of_run(values, fixed) }
        (Value::Octets(content), Kind::Explicit) => u64::from(content.count()) + 1,
        (Value::Compound(entries), Kind::Compound(slots)) => octets_of_entries(entries, slots),
        _ => 0,
    }
}

#[cycle(octets)]
fn octets_of_each(values: &Values, kind: &Kind) -> u64
    ensures { result ≡ capped (each_octets (values_tree values.now) (kind_tree kind.now)) }
{
    let mut total: u64 = 0;
    for value in values.as_slice() {
        total = total.saturating_add(octets_of(value, kind));
    }
    total
}

#[cycle(octets)]
fn octets_of_entry(entry: &Entry, slots: &Slots) -> u64
    ensures { result ≡ capped (octets_where (slot_kind (slots_tree slots.now) entry.now.slot) (octets (value_tree entry.now.value))) }
{
    match subitem_kind(slots, entry.slot) {
        Some(kind) => octets_of(&entry.value, kind),
        None => 0,
    }
}

/// The octets of a compound: of its presence field, then of its entries.
#[cycle(octets)]
fn octets_of_entries(entries: &Entries, slots: &Slots) -> u64
    ensures { result ≡ capped (octets (marked (entries_tree entries.now)) (compound (slots_tree slots.now))) }
{
    let mut last: u32 = 1;
    let mut total: u64 = 0;
    for entry in entries.as_slice() {
        last = entry.slot;
        total = total.saturating_add(octets_of_entry(entry, slots));
    }
    total.saturating_add(presence_octets_of(last))
}

#[tactic(auto, using(crate::proofs::Counting::item_kinds))]
fn octets_of_item(spec: &Spec, entry: &Entry) -> u64
    ensures { result ≡ capped (octets_where (slot_kind (record_slots (spec_tree spec.now)) entry.now.slot) (octets (value_tree entry.now.value))) }
{
    match spec.slot(entry.slot) {
        Some(item) => octets_of(&entry.value, &item.kind),
        None => 0,
    }
}

/// The octets of a record: of its FSPEC, then of its items.
fn octets_of_record(spec: &Spec, one: &Record) -> u64
    ensures { result ≡ capped (record_octets spec.now one.now) }
{
    let mut last: u32 = 1;
    let mut total: u64 = 0;
    for entry in one.entries.as_slice() {
        last = entry.slot;
        total = total.saturating_add(octets_of_item(spec, entry));
    }
    total.saturating_add(presence_octets_of(last))
}

#[tactic(auto, using(crate::proofs::Counting::records))]
fn octets_of_records(spec: &Spec, records: &[Record]) -> u64
    ensures { result ≡ capped (records_octets spec.now records.now) }
{
    let mut total: u64 = 0;
    for one in records {
        total = total.saturating_add(octets_of_record(spec, one));
    }
    total
}

/// The octets of the block's canonical form, CAT and LEN included, capped at 2^64 - 1 where there are more. The
/// specification has no flaw, and the block fits it.
#[tactic(auto, using(crate::proofs::BlockLengths::blocks))]
pub fn canon_length(spec: &Spec, block: &Block) -> u64
    requires no_flaw { HasNoFlaw spec.now }
    requires block_fits { BlockFits spec.now block.now }
    ensures { result ≡ capped (block_length spec.now block.now) }
{
    match block {
        Block::Read { records, .. } => {
            let body = octets_of_records(spec, records.as_slice());
            body.saturating_add(3)
        }
        Block::Opaque { octets, .. } => u64::from(octets.count()) + 3,
    }
}
