//! Values to contents.
ghost use Rattle.std.specs.Prelude.{◌≡◌, ◌*◌, ◌≤◌, length, IfOk, IfErr};
ghost use Rattle.ax_bits.specs.Bits.{bits};
ghost use Rattle.ax_bits.specs.Out.{Appends, room};
ghost use Rattle.ax_format.specs.Lengths.{capped, slot_kind, octets, octets_where};
ghost use Rattle.ax_format.specs.Plain.{slots_tree, entries_tree, value_tree};
ghost use Rattle.ax_format.specs.Shape.{Shape};
ghost use Rattle.ax_format.specs.Tree.{compound, marked};
ghost use Rattle.ax_values.specs.Writing.{AreEntriesOf};
ghost use Rattle.ax_expand.specs.Answers.{IsTooLongOrMemory, IsTooLongWhere};
ghost use Rattle.ax_expand.specs.Content.{CanonContent};
ghost use Rattle.ax_expand.specs.Fields.{HasFewOctets};
ghost use Rattle.ax_expand.specs.Lengths.{field_octets, content_octets, content_length};

use crate::accepted::AcceptedExpansion;
use crate::field::write_octets;
use crate::form::Form;
use ax_bits::Out;
use ax_format::{Entries, Entry, Slots, Value, octets_of, subitem_kind};
use ax_fspec::write_presence;
use ax_lists::zeros;
use ax_values::{EncodeError, entry_marks, write_entries};
use std::alloc::Global;

/// The most octets of a content, whose length octet counts itself.
const MOST: u64 = 254;

fn octets_of_entry(entry: &Entry, slots: &Slots) -> u64
    ensures { result ≡ capped (octets_where (slot_kind (slots_tree slots.now) entry.now.slot) (octets (value_tree entry.now.value))) }
{
    match subitem_kind(slots, entry.slot) {
        Some(kind) => octets_of(&entry.value, kind),
        None => 0,
    }
}

/// The octets of a presence field whose last marked slot has that number.
fn octets_of_field(form: Form, last: u32) -> u64
    ensures { result ≡ field_octets form last }
{
    match form {
        Form::Fx => (u64::from(last) + 6) / 7,
        Form::Fixed(count) => u64::from(count),
    }
}

/// The octets of the canonical content: of its presence field and of its entries, capped at 2^64 - 1.
fn octets_of_content(form: Form, entries: &Entries, slots: &Slots) -> u64
    ensures { result ≡ capped (content_octets form (slots_tree slots.now) (entries_tree entries.now)) }
{
    let mut last: u32 = 1;
    let mut total: u64 = 0;
    for entry in entries.as_slice() {
        last = entry.slot;
        total = total.saturating_add(octets_of_entry(entry, slots));
    }
    total.saturating_add(octets_of_field(form, last))
}

/// Appends the canonical content.
#[tactic(auto, using(crate::proofs::Writing::contents))]
fn write_content(form: Form, slots: &Slots, entries: &Entries, out: &mut Out<'_>)
    requires form { HasFewOctets form }
    requires entries { AreEntriesOf (slots_tree slots.now) (entries_tree entries.now) }
    requires room { length (CanonContent form (slots_tree slots.now) (marked (entries_tree entries.now))) ≤ room out.old }
    ensures { Appends out.old out.new (CanonContent form (slots_tree slots.now) (marked (entries_tree entries.now))) }
{
    match form {
        Form::Fx => write_presence(&entry_marks(entries), out),
        Form::Fixed(count) => write_octets(count, entries, out),
    }
    write_entries(entries, slots, out);
}

/// Fills a buffer of just its length with the canonical content.
fn write_over(form: Form, slots: &Slots, entries: &Entries, buffer: &mut [u8])
    requires form { HasFewOctets form }
    requires entries { AreEntriesOf (slots_tree slots.now) (entries_tree entries.now) }
    requires length { 8 * length buffer.old ≡ length (CanonContent form (slots_tree slots.now) (marked (entries_tree entries.now))) }
    requires small { length buffer.old ≤ 254 }
    ensures { bits buffer.new ≡ CanonContent form (slots_tree slots.now) (marked (entries_tree entries.now)) }
{
    let mut out = Out::over(buffer);
    write_content(form, slots, entries, &mut out);
}

/// The canonical content of entries of these slots.
#[tactic(auto, using(crate::proofs::ContentLengths::lengths))]
fn encode_entries(
    alloc: Global,
    form: Form,
    slots: &Slots,
    entries: &Entries,
) -> Result<Vec<u8>, EncodeError>
    requires entries { AreEntriesOf (slots_tree slots.now) (entries_tree entries.now) }
    ensures octets { IfOk result (λ made. bits made.items ≡ CanonContent form (slots_tree slots.now) (marked (entries_tree entries.now))) }
    ensures few { IfOk result (λ made. length made.items ≤ 254) }
    ensures too_long { IsTooLongWhere (content_length form (slots_tree slots.now) (marked (entries_tree entries.now))) result }
    ensures error { IfErr result (IsTooLongOrMemory (content_length form (slots_tree slots.now) (marked (entries_tree entries.now)))) }
{
    let octets = octets_of_content(form, entries, slots);
    if octets > MOST {
        return Err(EncodeError::TooLong { octets });
    }
    let mut buffer = zeros(alloc, octets as usize)?;
    write_over(form, slots, entries, &mut buffer);
    Ok(buffer)
}

/// The canonical content of a value that fits the expansion: each presence field in it is the least. TooLong comes exactly
/// where it has more than 254 octets, with their number, capped at 2^64 - 1. Takes the room of the octets once.
pub fn encode_content(
    alloc: Global,
    x: &AcceptedExpansion,
    value: &Value,
) -> Result<Vec<u8>, EncodeError>
    requires { Shape (compound (slots_tree x.now.slots)) (value_tree value.now) }
    ensures octets { IfOk result (λ made. bits made.items ≡ CanonContent x.now.form (slots_tree x.now.slots) (value_tree value.now)) }
    ensures few { IfOk result (λ made. length made.items ≤ 254) }
    ensures too_long { IsTooLongWhere (content_length x.now.form (slots_tree x.now.slots) (value_tree value.now)) result }
    ensures error { IfErr result (IsTooLongOrMemory (content_length x.now.form (slots_tree x.now.slots) (value_tree value.now))) }
{
    let expansion = x.expansion();
    match value {
        Value::Compound(entries) => {
            encode_entries(alloc, expansion.form, &expansion.slots, entries)
        }
        _ => unreachable!(),
    }
}
