//! Values and entries of the old edition, as they come to the new one.
ghost use Rattle.std.specs.Prelude.{◌≡◌, ◌++◌, map, IfOk, OnOk, option_map};
ghost use Rattle.ax_format.specs.Plain.{value_tree, entry_tree, entries_tree};
ghost use Rattle.ax_rescale.specs.Mappings.{mapping_entries, mapping_value, pair_converted, passed_by};
ghost use Rattle.ax_rescale.specs.PlainMappings.{mapping_tree, mappings_tree, pair_tree};
ghost use Rattle.ax_rescale.specs.Ready.{MappingReady, MappingsReady, PairReady, ValueReady};

use crate::mappings::{AlikePair, SlotMapping, SlotMappings};
use crate::values::convert_value;
use ax_format::{Entries, Entry, Value};
use ax_relation::{first_copies, value_of};
use std::alloc::{AllocError, Global};

/// The converted value; None where there is none.
fn converted(alloc: Global, pair: AlikePair<'_>, value: &Value) -> Result<Option<Value>, AllocError>
    requires { PairReady (pair_tree pair) (value_tree value.now) }
    ensures { IfOk result (λ made. option_map value_tree made ≡ pair_converted (pair_tree pair.entry) (value_tree value.now)) }
{
    convert_value(alloc, pair.old, pair.new, value)
}

/// The value as it comes to the new slot of a mapping: converted, if it can be; else of an extended item so many first parts, in a
/// compound what passes below, and else all of it.
#[cycle(passing)]
fn value_by(
    alloc: Global,
    one: &SlotMapping<'_>,
    value: &Value,
) -> Result<Option<Value>, AllocError>
    requires { ValueReady (mapping_tree one.now) (value_tree value.now) }
    ensures { IfOk result (λ made. option_map value_tree made ≡ mapping_value (mapping_tree one.now) (value_tree value.now)) }
{
    if let Some(pair) = one.alike {
        return converted(alloc, pair, value);
    }
    let passed = match value {
        Value::Compound(entries) => { Value::Compound(passed_entries(alloc, &one.below, entries)?) }
        Value::Extended(lists) => Value::Extended(first_copies(alloc, one.parts, lists)?),
        _ => value.copy(alloc)?,
    };
    Ok(Some(passed))
}

/// Appends the entry that a mapping makes, if there is one. A list of more than 2^32 - 1 entries is a want of memory.
#[cycle(passing)]
fn pass_entry(
    alloc: Global,
    one: &SlotMapping<'_>,
    entries: &Entries,
    made: &mut Entries,
) -> Result<(), AllocError>
    requires { MappingReady (mapping_tree one.now) (entries_tree entries.now) }
    ensures { OnOk result (map entry_tree made.new ≡ map entry_tree made.old ++ mapping_entries (mapping_tree one.now) (entries_tree entries.now)) }
{
    let Some(value) = value_of(entries, one.old) else {
        return Ok(());
    };
    let Some(value) = value_by(alloc, one, value)? else {
        return Ok(());
    };
    if made.count() == u32::MAX {
        return Err(AllocError);
    }
    made.push(Entry {
        slot: one.new,
        value,
    })?;
    Ok(())
}

/// The entries as they come to the new edition, in the order of the mappings.
#[cycle(passing)]
#[tactic(auto, using(crate::proofs::PassedEntries::entries))]
pub(crate) fn passed_entries(
    alloc: Global,
    mappings: &SlotMappings<'_>,
    entries: &Entries,
) -> Result<Entries, AllocError>
    requires { MappingsReady (mappings_tree mappings.now) (entries_tree entries.now) }
    ensures { IfOk result (λ made. entries_tree made ≡ passed_by (mappings_tree mappings.now) (entries_tree entries.now)) }
{
    let mut made = Entries::new(alloc);
    for one in mappings.as_slice() {
        pass_entry(alloc, one, entries, &mut made)?;
    }
    Ok(made)
}
