//! From which old slot each new one gets its value, found slot by slot of the new edition.
ghost use Rattle.std.specs.Prelude.{◌≡◌, ◌++◌, ◌∷◌, [], IfOk, OnOk, map};
ghost use Rattle.ax_edition.specs.Index.{found};
ghost use Rattle.ax_edition.specs.SlotItems.{item_slot, items_tree};
ghost use Rattle.ax_format.specs.Plain.{kind_tree, slot_tree, slots_tree};
ghost use Rattle.ax_format.specs.Tree.{subitem};
ghost use Rattle.ax_rescale.specs.Mappings.{mappings_below, mappings_of, slot_mappings};
ghost use Rattle.ax_rescale.specs.PlainMappings.{AddsMappings, mapping_tree};

use crate::alike::is_alike;
use ax_edition::{Index, NamedSlot, SlotItems, index_below, is_shared, shared_parts};
use ax_format::{Item, Kind, Slot, Slots};
use ax_lists::Sequence;
use std::alloc::{AllocError, Global};

/// Two kinds that stand at one path of both editions, where the values of the old one are converted to the new one.
#[derive(Clone, Copy)]
pub(crate) struct AlikePair<'k> {
    pub(crate) old: &'k Kind,
    pub(crate) new: &'k Kind,
}

/// Mappings, in the order of the new slots.
pub(crate) type SlotMappings<'k> = Sequence<SlotMapping<'k>>;

/// That a new slot gets its value of an old one: its converted value, where the kinds are alike; else as much of it as passes, of
/// an extended item so many first parts, and of a compound what passes below. Slots are numbered from 1.
#[cycle(mappings)]
#[derive(Drop)]
pub(crate) struct SlotMapping<'k> {
    pub(crate) old: u32,
    pub(crate) new: u32,
    pub(crate) alike: Option<AlikePair<'k>>,
    pub(crate) parts: u32,
    pub(crate) below: SlotMappings<'k>,
}

/// Appends a mapping. A list of more than 2^32 - 1 mappings is a want of memory.
fn push<'k>(mappings: &mut SlotMappings<'k>, one: SlotMapping<'k>) -> Result<(), AllocError>
    ensures { OnOk result (mappings.new ≡ mappings.old ++ one.entry ∷ []) }
{
    if mappings.count() == u32::MAX {
        return Err(AllocError);
    }
    mappings.push(one)
}

/// Appends the mapping to a new slot of that kind, if there is an old slot whose value passes or is converted.
#[cycle(mappings_of)]
#[tactic(auto, using(crate::proofs::MappingLists::puts))]
fn mapping_to<'k>(
    alloc: Global,
    kind: &'k Kind,
    new: NamedSlot<'_>,
    old: &Index<'k>,
    made: &mut SlotMappings<'k>,
) -> Result<(), AllocError>
    ensures { OnOk result (AddsMappings made.old made.new (slot_mappings new.entry.number (subitem new.entry.name.now (kind_tree kind.now)) (found old.now))) }
{
    let number = new.number;
    let Some((from, own)) = old.find(new.name) else {
        return Ok(());
    };
    if is_shared(own, kind) {
        let parts = shared_parts(own, kind);
        let below = mappings_of_kinds(alloc, kind, own)?;
        return push(
            made,
            SlotMapping {
                old: from,
                new: number,
                alike: None,
                parts,
                below,
            },
        );
    }
    if !is_alike(own, kind) {
        return Ok(());
    }
    push(
        made,
        SlotMapping {
            old: from,
            new: number,
            alike: Some(AlikePair {
                old: own,
                new: kind,
            }),
            parts: 0,
            below: SlotMappings::new(alloc),
        },
    )
}

/// What passes below, where both are compounds.
#[cycle(mappings_of)]
#[tactic(auto, using(crate::proofs::MappingLists::kinds))]
fn mappings_of_kinds<'k>(
    alloc: Global,
    new: &'k Kind,
    old: &'k Kind,
) -> Result<SlotMappings<'k>, AllocError>
    ensures { IfOk result (λ made. map mapping_tree made ≡ mappings_below (kind_tree new.now) (kind_tree old.now)) }
{
    match new {
        Kind::Compound(slots) => {
            let index = index_below(alloc, &Some(old))?;
            mappings_of_slots(alloc, slots, &index)
        }
        _ => Ok(SlotMappings::new(alloc)),
    }
}

/// Appends the mapping to a new slot of that number.
#[cycle(mappings_of)]
fn mapping_to_slot<'k>(
    alloc: Global,
    slot: &'k Slot,
    number: u32,
    old: &Index<'k>,
    mappings: &mut SlotMappings<'k>,
) -> Result<(), AllocError>
    ensures { OnOk result (map mapping_tree mappings.new ≡ map mapping_tree mappings.old ++ slot_mappings number (slot_tree slot.now) (found old.now)) }
{
    match slot {
        Slot::Spare => Ok(()),
        Slot::Sub { name, kind } => {
            let new = NamedSlot { number, name };
            mapping_to(alloc, kind, new, old, mappings)
        }
    }
}

#[cycle(mappings_of)]
#[tactic(auto, using(crate::proofs::MappingLists::slots))]
fn mappings_of_slots<'k>(
    alloc: Global,
    new: &'k Slots,
    old: &Index<'k>,
) -> Result<SlotMappings<'k>, AllocError>
    ensures { IfOk result (λ made. map mapping_tree made ≡ mappings_of 1 (slots_tree new.now) (found old.now)) }
{
    let mut made = SlotMappings::new(alloc);
    let mut before: u32 = 0;
    for slot in new.as_slice() {
        mapping_to_slot(alloc, slot, before + 1, old, &mut made)?;
        before += 1;
    }
    Ok(made)
}

/// Appends the mapping to a new slot of the UAP of that number.
fn mapping_to_item<'k>(
    alloc: Global,
    item: &Option<&'k Item>,
    number: u32,
    old: &Index<'k>,
    mappings: &mut SlotMappings<'k>,
) -> Result<(), AllocError>
    ensures { OnOk result (map mapping_tree mappings.new ≡ map mapping_tree mappings.old ++ slot_mappings number (item_slot item.now) (found old.now)) }
{
    match item {
        None => Ok(()),
        Some(item) => {
            let new = NamedSlot {
                number,
                name: &item.name,
            };
            mapping_to(alloc, &item.kind, new, old, mappings)
        }
    }
}

/// The mappings to the slots of the new UAP, in its order.
#[tactic(auto, using(crate::proofs::MappingLists::items))]
pub(crate) fn mappings_of_items<'k>(
    alloc: Global,
    new: &SlotItems<'k>,
    old: &Index<'k>,
) -> Result<SlotMappings<'k>, AllocError>
    ensures { IfOk result (λ made. map mapping_tree made ≡ mappings_of 1 (items_tree new.now) (found old.now)) }
{
    let mut made = SlotMappings::new(alloc);
    let mut before: u32 = 0;
    for item in new.as_slice() {
        mapping_to_item(alloc, item, before + 1, old, &mut made)?;
        before += 1;
    }
    Ok(made)
}
