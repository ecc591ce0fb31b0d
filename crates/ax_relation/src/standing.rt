//! What stands at the place of a key in a record. Nothing here takes memory.
ghost use Rattle.std.specs.Prelude.{◌≡◌, ◌∷◌, option_map};
ghost use Rattle.std.specs.Option.{option_copied};
ghost use Rattle.ax_format.specs.Placed.{has_part};
ghost use Rattle.ax_format.specs.Plain.{value_tree, entries_tree};
ghost use Rattle.ax_format.specs.Tree.{marked};
ghost use Rattle.ax_relation.specs.Standing.{is_there, value_below};

use crate::values::value_of;
use ax_format::{Entries, Place, Value};

/// Whether the value has the part of that number, or there is no question of a part.
pub fn has_part(value: &Value, part: Option<u32>) -> bool
    ensures { result ≡ has_part part (value_tree value.now) }
{
    match (part, value) {
        (None, _) => true,
        (Some(number), Value::Extended(lists)) => number < lists.count(),
        _ => false,
    }
}

/// The value to which slot numbers lead from a value.
fn value_below<'v>(value: &'v Value, steps: &[u32]) -> Option<&'v Value>
    ensures { option_map value_tree (option_copied result) ≡ value_below steps.now (value_tree value.now) }
{
    let Some((step, later)) = steps.split_first() else {
        return Some(value);
    };
    let Value::Compound(entries) = value else {
        return None;
    };
    value_below(value_of(entries, *step)?, later)
}

/// The value to which the numbers of a place lead, if it is there.
pub fn value_standing<'e>(entries: &'e Entries, place: &Place) -> Option<&'e Value>
    ensures { option_map value_tree (option_copied result) ≡ value_below (place.now.frn ∷ place.now.steps) (marked (entries_tree entries.now)) }
{
    value_below(value_of(entries, place.frn)?, place.steps.as_slice())
}

/// Whether a value stands where the numbers lead, with the part.
pub fn is_there(entries: &Entries, place: &Place, part: Option<u32>) -> bool
    ensures { result ≡ is_there place.now part (entries_tree entries.now) }
{
    match value_standing(entries, place) {
        Some(value) => has_part(value, part),
        None => false,
    }
}
