//! How many octets a record has in its canonical form. Nothing here takes memory.
ghost use Rattle.std.specs.Prelude.{◌≡◌};
ghost use Rattle.ax_format.specs.Lengths.{capped, octets, octets_where, presence_octets, record_octets, slot_kind};
ghost use Rattle.ax_format.specs.Plain.{spec_tree, value_tree};
ghost use Rattle.ax_format.specs.Specification.{record_slots};

use ax_format::{Entry, Record, Spec, octets_of};

/// The octets of the least FSPEC whose last marked slot has that number.
fn fspec_octets(last: u32) -> u64
    ensures { result ≡ presence_octets last }
{
    (u64::from(last) + 6) / 7
}

#[tactic(auto, using(ax_format::proofs::Counting::item_kinds))]
fn octets_of_item(spec: &Spec, entry: &Entry) -> u64
    ensures { result ≡ capped (octets_where (slot_kind (record_slots (spec_tree spec.now)) entry.now.slot) (octets (value_tree entry.now.value))) }
{
    match spec.slot(entry.slot) {
        Some(item) => octets_of(&entry.value, &item.kind),
        None => 0,
    }
}

/// The octets of a record, of its FSPEC and of its items, capped at 2^64 - 1.
pub(crate) fn octets_of_record(spec: &Spec, one: &Record) -> u64
    ensures { result ≡ capped (record_octets spec.now one.now) }
{
    let mut last: u32 = 1;
    let mut total: u64 = 0;
    for entry in one.entries.as_slice() {
        last = entry.slot;
        total = total.saturating_add(octets_of_item(spec, entry));
    }
    total.saturating_add(fspec_octets(last))
}
