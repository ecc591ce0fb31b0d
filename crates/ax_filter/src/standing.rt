//! What stands at a place in a record. Nothing here takes memory.
ghost use Rattle.std.specs.Prelude.{◌≡◌, ◌∷◌, option_map};
ghost use Rattle.std.specs.Option.{option_copied};
ghost use Rattle.ax_format.specs.At.{slot_value, nth_value, nth_list, value_at, is_present, At};
ghost use Rattle.ax_format.specs.Plain.{value_tree, values_tree, lists_tree, entries_tree, record_tree};
ghost use Rattle.ax_format.specs.Tree.{marked};

use ax_format::{Entries, Lists, Place, Record, Value, Values};

/// The value of the slot of that number. None comes exactly where it isn't marked.
#[tactic(auto, using(crate::proofs::PlaceValues::slots))]
fn in_slot(entries: &Entries, slot: u32) -> Option<&Value>
    ensures { option_map value_tree (option_copied result) ≡ slot_value slot (entries_tree entries.now) }
{
    for entry in entries.as_slice() {
        if entry.slot == slot {
            return Some(&entry.value);
        }
    }
    None
}

/// The value of the member of that number, from 0.
#[tactic(auto, using(crate::proofs::PlaceValues::members))]
fn in_group(values: &Values, member: u32) -> Option<&Value>
    ensures { option_map value_tree (option_copied result) ≡ nth_value member (values_tree values.now) }
{
    values.get(member)
}

/// The same in the part of that number, from 0. None comes also where the part isn't present.
#[tactic(auto, using(crate::proofs::PlaceValues::parts))]
fn in_part(lists: &Lists, part: u32, member: u32) -> Option<&Value>
    ensures { option_map value_tree (option_copied result) ≡ nth_value member (nth_list part (lists_tree lists.now)) }
{
    in_group(lists.get(part)?, member)
}

/// The value that the steps lead to.
#[tactic(auto, using(crate::proofs::PlaceValues::walks))]
fn in_value<'v>(value: &'v Value, steps: &[u32]) -> Option<&'v Value>
    ensures { option_map value_tree (option_copied result) ≡ value_at steps.now (value_tree value.now) }
{
    let Some((first, later)) = steps.split_first() else {
        return Some(value);
    };
    match value {
        Value::Group(values) => in_value(in_group(values, *first)?, later),
        Value::Extended(lists) => {
            let (member, inner) = later.split_first()?;
            in_value(in_part(lists, *first, *member)?, inner)
        }
        Value::Compound(entries) => in_value(in_slot(entries, *first)?, later),
        _ => None,
    }
}

/// The value that stands at the place.
#[tactic(auto, using(crate::proofs::PlaceValues::records))]
fn in_record<'v>(one: &'v Record, place: &Place) -> Option<&'v Value>
    ensures { option_map value_tree (option_copied result) ≡ value_at (place.now.frn ∷ place.now.steps) (marked (record_tree one.now)) }
{
    in_value(in_slot(&one.entries, place.frn)?, place.steps.as_slice())
}

/// Whether something stands at the place.
#[tactic(auto, using(crate::proofs::PlaceValues::presence))]
pub fn is_present(one: &Record, place: &Place) -> bool
    ensures { result ≡ is_present (record_tree one.now) place.now }
{
    in_record(one, place).is_some()
}

/// The number that stands at the place, if it is one.
#[tactic(auto, using(crate::proofs::PlaceValues::numbers))]
pub fn number_at(one: &Record, place: &Place) -> Option<u128>
    ensures { result ≡ At (record_tree one.now) place.now }
{
    match in_record(one, place)? {
        Value::Number(number) => Some(*number),
        _ => None,
    }
}
