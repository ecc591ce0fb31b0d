//! The keys of the old edition, with their places in both.
ghost use Rattle.std.specs.Prelude.{◌≡◌, ◌++◌, ◌∷◌, [], None, Some, IfOk, OnOk, map};
ghost use Rattle.ax_format.specs.Plain.{kind_tree, part_tree, slot_tree, slots_tree};
ghost use Rattle.ax_edition.specs.Relating.{target_there, below_target, lead, shared_place, parts_with, part_place, related_here, related_part, related_slots, keys_of_kind, keys_of_named, keys_of_parts, keys_of_slot, keys_of_slots, AddsPaths};
ghost use Rattle.ax_edition.specs.SlotItems.{item_slot, items_tree};

use crate::index::NamedSlot;
use crate::level::{Level, Target};
use crate::record_items::SlotItems;
use crate::sameness::{is_shared, shared_parts};
use crate::way::{Way, place_of};
use ax_format::{Item, Kind, Parts, Place, Slot, Slots, Steps, Text, at_part};
use ax_relation::{RelationPath, RelationPaths};
use std::alloc::{AllocError, Global};

/// The keys of the old edition that were come to, in order.
#[derive(Drop)]
struct Keys {
    alloc: Global,
    paths: RelationPaths,
}

/// The place of the target, if the kind shares with it.
fn place_where_shared(
    alloc: Global,
    kind: &Kind,
    target: &Option<Target<'_>>,
) -> Result<Option<Place>, AllocError>
    ensures { IfOk result (λ made. made ≡ shared_place None (kind_tree kind.now) (target_there target.now)) }
{
    match target {
        Some(target) if is_shared(kind, target.kind) => {
            Ok(Some(place_of(alloc, &target.numbers)?))
        }
        _ => Ok(None),
    }
}

/// How many first parts the kind has in common with the target.
fn parts_in_common(kind: &Kind, target: &Option<Target<'_>>) -> u32
    ensures { result ≡ parts_with (kind_tree kind.now) (target_there target.now) }
{
    match target {
        Some(target) => shared_parts(kind, target.kind),
        None => 0,
    }
}

/// The place of the target, if the part of that number is one of so many first ones.
fn place_of_part(
    alloc: Global,
    number: u32,
    shared: u32,
    target: &Option<Target<'_>>,
) -> Result<Option<Place>, AllocError>
    ensures { IfOk result (λ made. made ≡ part_place shared number (target_there target.now)) }
{
    match target {
        Some(target) if number < shared => Ok(Some(place_of(alloc, &target.numbers)?)),
        _ => Ok(None),
    }
}

/// The key of a kind itself.
fn path_for(
    alloc: Global,
    way: &Way,
    kind: &Kind,
    target: &Option<Target<'_>>,
) -> Result<RelationPath, AllocError>
    ensures { IfOk result (λ path. path ≡ related_here way.now.text way.now.numbers None (kind_tree kind.now) (target_there target.now)) }
{
    Ok(RelationPath {
        text: way.text.copy(alloc)?,
        part: None,
        old: place_of(alloc, &way.numbers)?,
        new: place_where_shared(alloc, kind, target)?,
    })
}

/// The key of the part of that number, of which so many first ones are shared.
fn part_for(
    alloc: Global,
    way: &Way,
    number: u32,
    shared: u32,
    target: &Option<Target<'_>>,
) -> Result<RelationPath, AllocError>
    ensures { IfOk result (λ path. path ≡ related_part way.now.text way.now.numbers number shared (target_there target.now)) }
{
    Ok(RelationPath {
        text: at_part(alloc, &way.text, number)?,
        part: Some(number),
        old: place_of(alloc, &way.numbers)?,
        new: place_of_part(alloc, number, shared, target)?,
    })
}

impl Keys {
    /// Appends a key. A list of more than 2^32 - 1 keys is a want of memory.
    fn push(&mut self, path: RelationPath) -> Result<(), AllocError>
        ensures { OnOk result (AddsPaths self.old self.new (path ∷ [])) }
    {
        if self.paths.count() == u32::MAX {
            return Err(AllocError);
        }
        self.paths.push(path)
    }

    /// Appends the keys of parts, of which so many first ones are shared.
    #[tactic(auto, using(crate::proofs::PathLists::parts))]
    fn add_parts(
        &mut self,
        way: &Way,
        parts: &Parts,
        shared: u32,
        target: &Option<Target<'_>>,
    ) -> Result<(), AllocError>
        ensures { OnOk result (AddsPaths self.old self.new (keys_of_parts way.now (map part_tree parts.now) shared (target_there target.now))) }
    {
        let mut number: u32 = 0;
        for _part in parts.as_slice() {
            let path = part_for(self.alloc, way, number, shared, target)?;
            self.push(path)?;
            number += 1;
        }
        Ok(())
    }

    /// Appends the key of a kind, and those of its parts or below.
    #[cycle(relate)]
    #[tactic(auto, using(crate::proofs::PathLists::kinds))]
    fn add_kind(
        &mut self,
        way: &Way,
        kind: &Kind,
        target: &Option<Target<'_>>,
    ) -> Result<(), AllocError>
        ensures { OnOk result (AddsPaths self.old self.new (keys_of_kind way.now (kind_tree kind.now) (target_there target.now))) }
    {
        let path = path_for(self.alloc, way, kind, target)?;
        self.push(path)?;
        match kind {
            Kind::Compound(slots) => {
                self.add_below(way, slots, target)?;
            }
            Kind::Extended { parts, .. } => {
                let shared = parts_in_common(kind, target);
                self.add_parts(way, parts, shared, target)?;
            }
            _ => {}
        }
        Ok(())
    }

    /// Appends the keys of the slots of a compound, below a target.
    #[cycle(relate)]
    #[tactic(auto, using(crate::proofs::PathLists::slots_below))]
    fn add_below(
        &mut self,
        way: &Way,
        slots: &Slots,
        target: &Option<Target<'_>>,
    ) -> Result<(), AllocError>
        ensures { OnOk result (AddsPaths self.old self.new (keys_of_slots way.now (slots_tree slots.now) (below_target (target_there target.now)))) }
    {
        let level = Level::below(self.alloc, target)?;
        self.add_slots(way, slots, &level)
    }

    /// Appends the keys of a slot that isn't spare.
    #[cycle(relate)]
    fn add_named(
        &mut self,
        way: &Way,
        slot: NamedSlot<'_>,
        kind: &Kind,
        level: &Level<'_>,
    ) -> Result<(), AllocError>
        ensures { OnOk result (AddsPaths self.old self.new (keys_of_named way.now slot.entry (kind_tree kind.now) (lead level.now))) }
    {
        let below = way.onto(self.alloc, slot.name, slot.number)?;
        let target = level.find(self.alloc, slot.name)?;
        self.add_kind(&below, kind, &target)
    }

    /// Appends the keys of a slot of that number.
    #[cycle(relate)]
    fn add_slot(
        &mut self,
        way: &Way,
        number: u32,
        slot: &Slot,
        level: &Level<'_>,
    ) -> Result<(), AllocError>
        ensures { OnOk result (AddsPaths self.old self.new (keys_of_slot way.now number (slot_tree slot.now) (lead level.now))) }
    {
        match slot {
            Slot::Spare => Ok(()),
            Slot::Sub { name, kind } => {
                let named = NamedSlot { number, name };
                self.add_named(way, named, kind, level)
            }
        }
    }

    /// Appends the keys of the slots of a compound.
    #[cycle(relate)]
    #[tactic(auto, using(crate::proofs::PathLists::slots))]
    fn add_slots(&mut self, way: &Way, slots: &Slots, level: &Level<'_>) -> Result<(), AllocError>
        ensures { OnOk result (AddsPaths self.old self.new (keys_of_slots way.now (slots_tree slots.now) (lead level.now))) }
    {
        let mut before: u32 = 0;
        for slot in slots.as_slice() {
            self.add_slot(way, before + 1, slot, level)?;
            before += 1;
        }
        Ok(())
    }

    /// Appends the keys of a slot of the UAP of that number.
    fn add_item(
        &mut self,
        way: &Way,
        number: u32,
        item: &Option<&Item>,
        level: &Level<'_>,
    ) -> Result<(), AllocError>
        ensures { OnOk result (AddsPaths self.old self.new (keys_of_slot way.now number (item_slot item.now) (lead level.now))) }
    {
        match item {
            None => Ok(()),
            Some(item) => {
                let named = NamedSlot {
                    number,
                    name: &item.name,
                };
                self.add_named(way, named, &item.kind, level)
            }
        }
    }
}

/// The keys of the slots of the UAP, below a text.
#[tactic(auto, using(crate::proofs::PathLists::items))]
pub(crate) fn relate_items(
    alloc: Global,
    text: Text,
    items: &SlotItems<'_>,
    level: &Level<'_>,
) -> Result<RelationPaths, AllocError>
    ensures { IfOk result (λ made. made ≡ related_slots text [] 1 (items_tree items.now) (lead level.now)) }
{
    let way = Way {
        text,
        numbers: Steps::new(alloc),
    };
    let mut keys = Keys {
        alloc,
        paths: RelationPaths::new(alloc),
    };
    let mut before: u32 = 0;
    for item in items.as_slice() {
        keys.add_item(&way, before + 1, item, level)?;
        before += 1;
    }
    Ok(keys.paths)
}
