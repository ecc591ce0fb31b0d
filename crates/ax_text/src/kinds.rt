//! The lines of kinds.
ghost use Rattle.std.specs.Prelude.{◌≡◌, map, OnOk};
ghost use Rattle.std.specs.Option.{option_copied, option_map};
ghost use Rattle.std.specs.List.{AllByRecursion};
ghost use Rattle.ax_format.specs.Plain.{fixed_tree, part_tree, kind_tree, slot_tree, slots_tree, value_tree, values_tree, lists_tree, entries_tree};
ghost use Rattle.ax_format.specs.Shape.{FixedShape, PartsShape, EachShape, Shape, EntriesShape};
ghost use Rattle.ax_format.specs.Tree.{counted, compound, occurrences, marked};
ghost use Rattle.ax_format.specs.declared.kind.Counter.{Counter};
ghost use Rattle.ax_text_form.specs.Listable.{FixedListable, MembersListable, KindListable, SlotListable, SlotsListable};
ghost use Rattle.ax_text_form.specs.Printing.{PutsLines};
ghost use Rattle.ax_text_form.specs.ShowText.{fixed_lines, parts_lines, each_lines, kind_lines, entries_lines, extended_lines, repeated_lines};
ghost use Rattle.ax_text_form.specs.Slots.{slot_numbered, or_spare, SlotShape};
ghost use Rattle.ax_text.specs.EntryLines.{entry_lines};

use crate::fixed::{list_fixed, list_members};
use crate::paths::{list_count, path_of_occurrence, path_under};
use ax_format::{Entries, Entry, Fixed, Kind, Lists, Parts, Slot, Slots, Value, Values};
use ax_octets::LinePath;
use ax_text_form::Lister;
use std::alloc::AllocError;

/// An extended or closed item: how many parts are present, and their members.
fn list_extended(
    lister: &mut Lister,
    lists: &Lists,
    parts: &Parts,
    path: &LinePath,
) -> Result<(), AllocError>
    requires listable { AllByRecursion MembersListable (map part_tree parts.now) }
    requires shape { PartsShape (map part_tree parts.now) (lists_tree lists.now) }
    ensures { OnOk result (PutsLines (extended_lines (map part_tree parts.now) path.now (lists_tree lists.now)) lister.old lister.new) }
{
    list_count(lister, b"parts", lists.count(), path)?;
    list_parts(lister, lists, parts, path)
}

#[tactic(auto, using(crate::proofs::ListedValues::parts_ways))]
fn list_parts(
    lister: &mut Lister,
    lists: &Lists,
    parts: &Parts,
    path: &LinePath,
) -> Result<(), AllocError>
    requires listable { AllByRecursion MembersListable (map part_tree parts.now) }
    requires shape { PartsShape (map part_tree parts.now) (lists_tree lists.now) }
    ensures { OnOk result (PutsLines (parts_lines (map part_tree parts.now) path.now (lists_tree lists.now)) lister.old lister.new) }
{
    for (part, values) in parts.as_slice().iter().zip(lists.as_slice()) {
        list_members(lister, values, &part.members, path)?;
    }
    Ok(())
}

/// A by-FX item: how many occurrences there are, and each of them.
fn list_by_fx(
    lister: &mut Lister,
    values: &Values,
    fixed: &Fixed,
    path: &LinePath,
) -> Result<(), AllocError>
    requires listable { FixedListable (fixed_tree fixed.now) }
    requires shape { EachShape (FixedShape (fixed_tree fixed.now)) (values_tree values.now) }
    ensures { OnOk result (PutsLines (repeated_lines (fixed_lines (fixed_tree fixed.now)) path.now (values_tree values.now)) lister.old lister.new) }
{
    list_count(lister, b"occurrences", values.count(), path)?;
    list_run(lister, values, fixed, path)
}

#[tactic(auto, using(crate::proofs::ListedValues::each_ways))]
fn list_run(
    lister: &mut Lister,
    values: &Values,
    fixed: &Fixed,
    path: &LinePath,
) -> Result<(), AllocError>
    requires listable { FixedListable (fixed_tree fixed.now) }
    requires shape { EachShape (FixedShape (fixed_tree fixed.now)) (values_tree values.now) }
    ensures { OnOk result (PutsLines (each_lines (fixed_lines (fixed_tree fixed.now)) path.now 0 (values_tree values.now)) lister.old lister.new) }
{
    let mut number: u32 = 0;
    for value in values.as_slice() {
        let inner = path_of_occurrence(lister, path, number)?;
        list_fixed(lister, value, fixed, &inner)?;
        number += 1;
    }
    Ok(())
}

/// The value of an item, a subitem or an occurrence.
#[cycle(list_kind)]
pub(crate) fn list_kind(
    lister: &mut Lister,
    value: &Value,
    kind: &Kind,
    path: &LinePath,
) -> Result<(), AllocError>
    requires listable { KindListable (kind_tree kind.now) }
    requires shape { Shape (kind_tree kind.now) (value_tree value.now) }
    ensures { OnOk result (PutsLines (kind_lines (kind_tree kind.now) path.now (value_tree value.now)) lister.old lister.new) }
{
    match (value, kind) {
        (value, Kind::Fixed(fixed)) => list_fixed(lister, value, fixed, path),
        (Value::Extended(lists), Kind::Extended { parts, .. }) => {
            list_extended(lister, lists, parts, path)
        }
        (Value::Repeat(values), Kind::Counted { inner, .. }) => {
            list_counted(lister, values, inner, path)
        }
        (Value::Repeat(values), Kind::ByFx(fixed)) => list_by_fx(lister, values, fixed, path),
        (Value::Octets(octets), Kind::Explicit) => lister.content_at(octets.as_slice(), path),
        (Value::Compound(entries), Kind::Compound(slots)) => {
            list_compound(lister, entries, slots, path)
        }
        _ => Ok(()),
    }
}

/// A counted or wide item: how many occurrences there are, and each of them.
#[cycle(list_kind)]
#[tactic(auto, using(crate::proofs::ListedValues::counted_ways))]
fn list_counted(
    lister: &mut Lister,
    values: &Values,
    inner: &Kind,
    path: &LinePath,
) -> Result<(), AllocError>
    requires listable { KindListable (kind_tree inner.now) }
    requires shape { (size : Counter) × Shape (counted size (kind_tree inner.now)) (occurrences (values_tree values.now)) }
    ensures { OnOk result (PutsLines (repeated_lines (kind_lines (kind_tree inner.now)) path.now (values_tree values.now)) lister.old lister.new) }
{
    list_count(lister, b"occurrences", values.count(), path)?;
    list_each(lister, values, inner, path)
}

#[cycle(list_kind)]
#[tactic(auto, using(crate::proofs::ListedValues::each_ways))]
fn list_each(
    lister: &mut Lister,
    values: &Values,
    kind: &Kind,
    path: &LinePath,
) -> Result<(), AllocError>
    requires listable { KindListable (kind_tree kind.now) }
    requires shape { EachShape (Shape (kind_tree kind.now)) (values_tree values.now) }
    ensures { OnOk result (PutsLines (each_lines (kind_lines (kind_tree kind.now)) path.now 0 (values_tree values.now)) lister.old lister.new) }
{
    let mut number: u32 = 0;
    for value in values.as_slice() {
        let inner = path_of_occurrence(lister, path, number)?;
        list_kind(lister, value, kind, &inner)?;
        number += 1;
    }
    Ok(())
}

/// A compound: how many subitems are present, and each of them.
#[cycle(list_kind)]
#[tactic(auto, using(crate::proofs::ListedValues::compound_ways))]
fn list_compound(
    lister: &mut Lister,
    entries: &Entries,
    slots: &Slots,
    path: &LinePath,
) -> Result<(), AllocError>
    requires listable { SlotsListable (slots_tree slots.now) }
    requires shape { EntriesShape 1 (slots_tree slots.now) (entries_tree entries.now) }
    ensures { OnOk result (PutsLines (kind_lines (compound (slots_tree slots.now)) path.now (marked (entries_tree entries.now))) lister.old lister.new) }
{
    list_count(lister, b"subitems", entries.count(), path)?;
    list_entries(lister, entries, slots, path)
}

#[cycle(list_kind)]
#[tactic(auto, using(crate::proofs::ListedValues::entries_ways))]
fn list_entries(
    lister: &mut Lister,
    entries: &Entries,
    slots: &Slots,
    path: &LinePath,
) -> Result<(), AllocError>
    requires listable { SlotsListable (slots_tree slots.now) }
    requires shape { EntriesShape 1 (slots_tree slots.now) (entries_tree entries.now) }
    ensures { OnOk result (PutsLines (entries_lines path.now 1 (slots_tree slots.now) (entries_tree entries.now)) lister.old lister.new) }
{
    for entry in entries.as_slice() {
        list_entry(lister, entry, slots, path)?;
    }
    Ok(())
}

#[cycle(list_kind)]
#[tactic(auto, using(crate::proofs::ListedValues::entry_ways))]
fn list_entry(
    lister: &mut Lister,
    entry: &Entry,
    slots: &Slots,
    path: &LinePath,
) -> Result<(), AllocError>
    requires listable { SlotListable (slot_numbered (slots_tree slots.now) entry.now.slot) }
    requires shape { SlotShape (slot_numbered (slots_tree slots.now) entry.now.slot) (value_tree entry.now.value) }
    ensures { OnOk result (PutsLines (entry_lines path.now (slots_tree slots.now) entry.now) lister.old lister.new) }
{
    if let Some(Slot::Sub { name, kind }) = slot_of(slots, entry.slot) {
        let inner = path_under(lister, path, name)?;
        list_kind(lister, &entry.value, kind, &inner)?;
    }
    Ok(())
}

/// The slot of that number, from 1. None comes exactly where there is no such slot.
#[tactic(auto, using(ax_text_form::proofs::EntryWays::slot_found))]
fn slot_of(slots: &Slots, number: u32) -> Option<&Slot>
    ensures { or_spare (option_map slot_tree (option_copied result)) ≡ slot_numbered (slots_tree slots.now) number }
{
    if number == 0 {
        return None;
    }
    slots.get(number - 1)
}
