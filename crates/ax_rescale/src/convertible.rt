//! From which slots something is converted between two editions.
ghost use Rattle.std.specs.Prelude.{◌≡◌, ◌++◌, ◌∷◌, [], IfOk, OnOk, map};
ghost use Rattle.ax_format.specs.Plain.{spec_tree};
ghost use Rattle.ax_rescale.specs.Converts.{converting_of, converting_slots, mapping_converts, some_converts};
ghost use Rattle.ax_rescale.specs.PlainMappings.{mapping_tree, mappings_tree};

use crate::converter::mappings_between;
use crate::mappings::{SlotMapping, SlotMappings};
use ax_format::Spec;
use std::alloc::{AllocError, Global};

/// Whether something is converted by the mapping, or by one below it.
#[cycle(converts)]
fn mapping_converts(one: &SlotMapping<'_>) -> bool
    ensures { result ≡ mapping_converts (mapping_tree one.now) }
{
    one.alike.is_some() || some_converts(&one.below)
}

/// Whether something is converted by one of the mappings.
#[cycle(converts)]
#[tactic(auto, using(crate::proofs::ConvertingMappings::tests))]
fn some_converts(mappings: &SlotMappings<'_>) -> bool
    ensures { result ≡ some_converts (mappings_tree mappings.now) }
{
    for one in mappings.as_slice() {
        if mapping_converts(one) {
            return true;
        }
    }
    false
}

/// Appends the old slot of a mapping, if something is converted by it.
fn push_slot(slots: &mut Vec<u32>, one: &SlotMapping<'_>) -> Result<(), AllocError>
    ensures { OnOk result (slots.new.items ≡ slots.old.items ++ converting_of (mapping_tree one.now ∷ [])) }
{
    if mapping_converts(one) {
        slots.push(one.old)?;
    }
    Ok(())
}

/// The old slots of the mappings by which something is converted.
#[tactic(auto, using(crate::proofs::ConvertingMappings::slots))]
fn slots_of(alloc: Global, mappings: &SlotMappings<'_>) -> Result<Vec<u32>, AllocError>
    ensures { IfOk result (λ slots. slots.items ≡ converting_of (map mapping_tree mappings.now)) }
{
    let mut slots = Vec::new(alloc);
    for one in mappings.as_slice() {
        push_slot(&mut slots, one)?;
    }
    Ok(slots)
}

/// The slots of the old edition, from 1, from which something is converted to the new one: in which a path stands that both
/// editions have and don't share, of two kinds that are alike. Of a record with a value in none of them nothing is converted. Err
/// is want of memory.
pub fn converting_slots(alloc: Global, old: &Spec, new: &Spec) -> Result<Vec<u32>, AllocError>
    ensures { IfOk result (λ slots. slots.items ≡ converting_slots (spec_tree old.now) (spec_tree new.now)) }
{
    let mappings = mappings_between(alloc, old, new)?;
    slots_of(alloc, &mappings)
}
