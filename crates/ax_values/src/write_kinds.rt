//! Values written under their kinds.
ghost use Rattle.std.specs.Prelude.{◌≡◌, ◌<◌, ◌≤◌, length};
ghost use Rattle.ax_bits.specs.Out.{Appends, room};
ghost use Rattle.ax_format.specs.Canonical.{canon, each_canon, entries_canon};
ghost use Rattle.ax_format.specs.InBounds.{InBounds};
ghost use Rattle.ax_format.specs.Lengths.{slot_kind};
ghost use Rattle.ax_format.specs.Plain.{kind_tree, slots_tree, value_tree, values_tree, entries_tree};
ghost use Rattle.ax_format.specs.Shape.{Shape, EachShape};
ghost use Rattle.ax_format.specs.Tree.{counted, explicit, compound, occurrences, content_octets, marked};
ghost use Rattle.ax_values.specs.Writing.{EntryShape, entry_canon, AreEntriesOf};

use crate::marks::entry_marks;
use crate::write_units::{write_fixed, write_parts, write_run};
use ax_bits::Out;
use ax_format::{Counter, Entries, Entry, Kind, Octets, Slots, Value, Values, subitem_kind};
use ax_fspec::write_presence;

/// Appends the canonical spelling of a value of a kind.
#[cycle(write_value)]
#[tactic(auto, using(ax_bits::proofs::Outputs::appends_none))]
pub(crate) fn write_value(value: &Value, kind: &Kind, out: &mut Out<'_>)
    requires bounds { InBounds (kind_tree kind.now) }
    requires shape { Shape (kind_tree kind.now) (value_tree value.now) }
    requires room { length (canon (kind_tree kind.now) (value_tree value.now)) ≤ room out.old }
    ensures { Appends out.old out.new (canon (kind_tree kind.now) (value_tree value.now)) }
{
    match (value, kind) {
        (value, Kind::Fixed(fixed)) => write_fixed(value, fixed, out),
        (Value::Extended(lists), Kind::Extended { last, parts }) => {
            write_parts(lists, *last, parts, out)
        }
        (Value::Repeat(values), Kind::Counted { counter, inner }) => {
            write_counted(values, *counter, inner, out)
        }
        (Value::Repeat(values), Kind::ByFx(fixed)) => write_run(values, fixed, out),
        (Value::Octets(content), Kind::Explicit) => write_content(content, out),
        (Value::Compound(entries), Kind::Compound(slots)) => write_compound(entries, slots, out),
        _ => {}
    }
}

/// Appends the occurrences of a counted or wide item, with REP in front, in one octet or in two.
#[cycle(write_value)]
fn write_counted(values: &Values, size: Counter, inner: &Kind, out: &mut Out<'_>)
    requires bounds { InBounds (kind_tree inner.now) }
    requires shape { Shape (counted size (kind_tree inner.now)) (occurrences (values_tree values.now)) }
    requires room { length (canon (counted size (kind_tree inner.now)) (occurrences (values_tree values.now))) ≤ room out.old }
    ensures { Appends out.old out.new (canon (counted size (kind_tree inner.now)) (occurrences (values_tree values.now))) }
{
    out.push_bits(u128::from(values.count()), 8 * size.octets());
    write_each(values, inner, out);
}

/// Appends values of one kind, in order.
#[cycle(write_value)]
fn write_each(values: &Values, kind: &Kind, out: &mut Out<'_>)
    requires bounds { InBounds (kind_tree kind.now) }
    requires shape { EachShape (Shape (kind_tree kind.now)) (values_tree values.now) }
    requires room { length (each_canon (canon (kind_tree kind.now)) (values_tree values.now)) ≤ room out.old }
    ensures { Appends out.old out.new (each_canon (canon (kind_tree kind.now)) (values_tree values.now)) }
{
    for value in values.as_slice() {
        write_value(value, kind, out);
    }
}

/// Appends an explicit content, with its length octet in front.
fn write_content(content: &Octets, out: &mut Out<'_>)
    requires count { length content.now < 255 }
    requires room { length (canon explicit (content_octets content.now)) ≤ room out.old }
    ensures { Appends out.old out.new (canon explicit (content_octets content.now)) }
{
    out.push_octet(content.count() as u8 + 1);
    out.push_octets(content.as_slice());
}

/// Appends the entries of a compound, with their least presence field in front.
#[cycle(write_value)]
fn write_compound(entries: &Entries, slots: &Slots, out: &mut Out<'_>)
    requires entries { AreEntriesOf (slots_tree slots.now) (entries_tree entries.now) }
    requires room { length (canon (compound (slots_tree slots.now)) (marked (entries_tree entries.now))) ≤ room out.old }
    ensures { Appends out.old out.new (canon (compound (slots_tree slots.now)) (marked (entries_tree entries.now))) }
{
    write_presence(&entry_marks(entries), out);
    write_entries(entries, slots, out);
}

/// Appends the entries of a compound, in order, without their presence field.
#[cycle(write_value)]
pub fn write_entries(entries: &Entries, slots: &Slots, out: &mut Out<'_>)
    requires entries { AreEntriesOf (slots_tree slots.now) (entries_tree entries.now) }
    requires room { length (entries_canon 1 (slots_tree slots.now) (entries_tree entries.now)) ≤ room out.old }
    ensures { Appends out.old out.new (entries_canon 1 (slots_tree slots.now) (entries_tree entries.now)) }
{
    for entry in entries.as_slice() {
        write_entry(entry, slots, out);
    }
}

#[cycle(write_value)]
fn write_entry(entry: &Entry, slots: &Slots, out: &mut Out<'_>)
    requires shape { EntryShape (slot_kind (slots_tree slots.now) entry.now.slot) (value_tree entry.now.value) }
    requires room { length (entry_canon (slot_kind (slots_tree slots.now) entry.now.slot) (value_tree entry.now.value)) ≤ room out.old }
    ensures { Appends out.old out.new (entry_canon (slot_kind (slots_tree slots.now) entry.now.slot) (value_tree entry.now.value)) }
{
    if let Some(kind) = subitem_kind(slots, entry.slot) {
        write_value(&entry.value, kind, out);
    }
}
