//! A value of one kind as the value of another to which it is converted.
ghost use Rattle.std.specs.Prelude.{◌<◌, length, IfOk};
ghost use Rattle.ax_format.specs.Plain.{fixed_tree, kind_tree, slot_tree, slots_tree, value_tree, values_tree, entries_tree};
ghost use Rattle.ax_format.specs.Shape.{FixedShape, EachShape, Shape, EntriesShape};
ghost use Rattle.ax_rescale.specs.Converted.{FixedConverted, EachConverted, Converted, EntriesConverted};
ghost use Rattle.ax_rescale.specs.Makes.{IfMade, IfNotMade};
ghost use Rattle.ax_rescale.specs.Scales.{FixedScaled, Scaled, SlotScaled, SlotsScaled};
ghost use Rattle.ax_rescale.specs.SlotSteps.{ConvertsSlot, SlotShape};

use crate::fixed_values::convert_fixed;
use ax_format::{Entries, Entry, Fixed, Kind, Slot, Slots, Value, Values};
use std::alloc::{AllocError, Global};

/// The occurrences of a by-FX item, where each of them is converted.
#[tactic(auto, using(crate::proofs::EachSteps::each_start))]
fn convert_run(
    alloc: Global,
    old: &Fixed,
    new: &Fixed,
    values: &Values,
) -> Result<Option<Values>, AllocError>
    requires old { FixedScaled (fixed_tree old.now) }
    requires new { FixedScaled (fixed_tree new.now) }
    requires shape { EachShape (FixedShape (fixed_tree old.now)) (values_tree values.now) }
    ensures some { IfMade values_tree (EachConverted (FixedConverted (fixed_tree old.now) (fixed_tree new.now)) (values_tree values.now)) result }
    ensures none { IfNotMade (EachConverted (FixedConverted (fixed_tree old.now) (fixed_tree new.now)) (values_tree values.now)) result }
{
    let mut made = Values::new(alloc);
    for value in values.as_slice() {
        let Some(one) = convert_fixed(alloc, old, new, value)? else {
            return Ok(None);
        };
        made.push(one)?;
    }
    Ok(Some(made))
}

/// The value of the new kind to which a value of the old one is converted: each quantity's number under the new scale, and all
/// else as it was. None comes exactly where there is none: a number isn't whole under the new scale, or doesn't fit its width
/// or its sign, or the kinds differ in their members or slots.
#[cycle(convert_value)]
#[tactic(auto, using(crate::proofs::EachSteps::no_values_made, crate::proofs::CountedKinds::scaled_inner, crate::proofs::CountedKinds::shape_inner))]
pub fn convert_value(
    alloc: Global,
    old: &Kind,
    new: &Kind,
    value: &Value,
) -> Result<Option<Value>, AllocError>
    requires old { Scaled (kind_tree old.now) }
    requires new { Scaled (kind_tree new.now) }
    requires shape { Shape (kind_tree old.now) (value_tree value.now) }
    ensures some { IfMade value_tree (Converted (kind_tree old.now) (kind_tree new.now) (value_tree value.now)) result }
    ensures none { IfNotMade (Converted (kind_tree old.now) (kind_tree new.now) (value_tree value.now)) result }
{
    match (old, new, value) {
        (Kind::Fixed(fixed), Kind::Fixed(own), value) => convert_fixed(alloc, fixed, own, value),
        (Kind::Extended { .. }, Kind::Extended { .. }, value) => Ok(Some(value.copy(alloc)?)),
        (Kind::Counted { inner, .. }, Kind::Counted { inner: own, .. }, Value::Repeat(values)) => {
            let Some(made) = convert_each(alloc, inner, own, values)? else {
                return Ok(None);
            };
            Ok(Some(Value::Repeat(made)))
        }
        (Kind::ByFx(fixed), Kind::ByFx(own), Value::Repeat(values)) => {
            let Some(made) = convert_run(alloc, fixed, own, values)? else {
                return Ok(None);
            };
            Ok(Some(Value::Repeat(made)))
        }
        (Kind::Explicit, Kind::Explicit, value) => Ok(Some(value.copy(alloc)?)),
        (Kind::Compound(slots), Kind::Compound(own), Value::Compound(entries)) => {
            let Some(made) = convert_slots(alloc, slots, own, entries)? else {
                return Ok(None);
            };
            Ok(Some(Value::Compound(made)))
        }
        _ => Ok(None),
    }
}

/// The occurrences of a counted item, where each of them is converted.
#[cycle(convert_value)]
#[tactic(auto, using(crate::proofs::EachSteps::each_start))]
fn convert_each(
    alloc: Global,
    old: &Kind,
    new: &Kind,
    values: &Values,
) -> Result<Option<Values>, AllocError>
    requires old { Scaled (kind_tree old.now) }
    requires new { Scaled (kind_tree new.now) }
    requires shape { EachShape (Shape (kind_tree old.now)) (values_tree values.now) }
    ensures some { IfMade values_tree (EachConverted (Converted (kind_tree old.now) (kind_tree new.now)) (values_tree values.now)) result }
    ensures none { IfNotMade (EachConverted (Converted (kind_tree old.now) (kind_tree new.now)) (values_tree values.now)) result }
{
    let mut made = Values::new(alloc);
    for value in values.as_slice() {
        let Some(one) = convert_value(alloc, old, new, value)? else {
            return Ok(None);
        };
        made.push(one)?;
    }
    Ok(Some(made))
}

/// The entries of a compound, where each of them is converted to the slot of its number.
#[cycle(convert_value)]
#[tactic(auto, using(crate::proofs::EntrySteps::entries_start))]
fn convert_slots(
    alloc: Global,
    old: &Slots,
    new: &Slots,
    entries: &Entries,
) -> Result<Option<Entries>, AllocError>
    requires old { SlotsScaled (slots_tree old.now) }
    requires new { SlotsScaled (slots_tree new.now) }
    requires shape { EntriesShape 1 (slots_tree old.now) (entries_tree entries.now) }
    ensures some { IfMade entries_tree (EntriesConverted 1 (slots_tree old.now) (slots_tree new.now) (entries_tree entries.now)) result }
    ensures none { IfNotMade (EntriesConverted 1 (slots_tree old.now) (slots_tree new.now) (entries_tree entries.now)) result }
{
    let mut made = Entries::new(alloc);
    let mut number: u64 = 1;
    let mut others = new.as_slice();
    let mut rest = entries.as_slice();
    for slot in old.as_slice() {
        let Some((own, after)) = others.split_first() else {
            return Ok(None);
        };
        let slots = SlotsOfNumber {
            number,
            old: slot,
            new: own,
        };
        let Some(later) = convert_slot(alloc, slots, rest, &mut made)? else {
            return Ok(None);
        };
        number += 1;
        others = after;
        rest = later;
    }
    if others.is_empty() {
        Ok(Some(made))
    } else {
        Ok(None)
    }
}

/// The slots of one number, from 1, of the old compound and the new one.
#[derive(Clone, Copy)]
struct SlotsOfNumber<'s> {
    number: u64,
    old: &'s Slot,
    new: &'s Slot,
}

/// Appends the entry to which the old slot's entry is converted, if there is one, and answers the entries after it. None comes
/// where it has no converted value, or one of the two slots is spare.
#[cycle(convert_value)]
#[tactic(auto, using(crate::proofs::EntrySteps::slot_steps))]
fn convert_slot<'e>(
    alloc: Global,
    slots: SlotsOfNumber<'_>,
    entries: &'e [Entry],
    made: &mut Entries,
) -> Result<Option<&'e [Entry]>, AllocError>
    requires old { SlotScaled (slot_tree slots.old.now) }
    requires new { SlotScaled (slot_tree slots.new.now) }
    requires shape { SlotShape slots.number (slot_tree slots.old.now) (entries_tree entries.now) }
    requires room { length made.old < 4294967295 }
    ensures { IfOk result (λ left. ConvertsSlot slots.entry.number slots.entry.old.now slots.entry.new.now entries.now left made.old made.new) }
{
    match (slots.old, slots.new) {
        (Slot::Spare, Slot::Spare) => Ok(Some(entries)),
        (Slot::Sub { kind, .. }, Slot::Sub { kind: own, .. }) => match entries.split_first() {
            Some((entry, later)) if u64::from(entry.slot) == slots.number => {
                let Some(value) = convert_value(alloc, kind, own, &entry.value)? else {
                    return Ok(None);
                };
                made.push(Entry {
                    slot: entry.slot,
                    value,
                })?;
                Ok(Some(later))
            }
            _ => Ok(Some(entries)),
        },
        _ => Ok(None),
    }
}
