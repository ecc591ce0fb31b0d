//! Slots by name.
ghost use Rattle.std.specs.Prelude.{◌≡◌, ◌++◌, ◌∷◌, [], ℕ, List, None, Some, OnOk, IfOk, map, option_map};
ghost use Rattle.std.specs.Option.{option_copied};
ghost use Rattle.ax_format.specs.Lengths.{kind_of_slot};
ghost use Rattle.ax_format.specs.Plain.{kind_tree, slot_tree, slots_tree};
ghost use Rattle.ax_edition.specs.Index.{slot_found, found, seen_kind, Finds, FindsBelow};
ghost use Rattle.ax_edition.specs.SlotItems.{item_slot, items_tree};

use crate::numbers::{Numbers, number_slot_items, number_slots};
use crate::record_items::SlotItems;
use ax_format::{Item, Kind, Name, Slot, Slots};
use ax_lists::Sequence;
use std::alloc::{AllocError, Global};

/// The kind of each slot, in order; a spare slot has none.
type Kinds<'k> = Sequence<Option<&'k Kind>>;

/// Slots, each to be found by its name: the first of a name.
pub struct Index<'k> {
    numbers: Numbers,
    kinds: Kinds<'k>,
}

impl Drop for Index<'_> {
    fn drop(self) {
        let Index {
            numbers: _numbers,
            kinds: _kinds,
        } = self;
    }
}

/// What a slot that isn't spare is found by: its number, from 1, and its name.
#[derive(Clone, Copy)]
pub struct NamedSlot<'k> {
    pub number: u32,
    pub name: &'k Name,
}

/// Appends a kind. A list of more than 2^32 - 1 members is a want of memory.
fn push<'k>(kinds: &mut Kinds<'k>, kind: &Option<&'k Kind>) -> Result<(), AllocError>
    ensures { OnOk result (kinds.new ≡ kinds.old ++ kind.now ∷ []) }
{
    if kinds.count() == u32::MAX {
        return Err(AllocError);
    }
    kinds.push(*kind)
}

impl<'k> Index<'k> {
    /// No slot. Takes no memory.
    fn new(alloc: Global) -> Index<'k>
        ensures { (name : List ℕ) → found result name ≡ None }
    {
        Index {
            numbers: Numbers::new(alloc),
            kinds: Kinds::new(alloc),
        }
    }

    /// The first slot of that name: its number, from 1, and its kind. Takes no memory.
    pub fn find(&self, name: &Name) -> Option<(u32, &'k Kind)>
        ensures { option_map slot_found result ≡ found self.now name.now }
    {
        let number = self.numbers.get(name)?;
        if number == 0 {
            return None;
        }
        let kind = (*self.kinds.get(number - 1)?)?;
        Some((number, kind))
    }
}

/// The kind of a slot.
fn kind_of(slot: &Slot) -> Option<&Kind>
    ensures { seen_kind result ≡ kind_of_slot (slot_tree slot.now) }
{
    match slot {
        Slot::Spare => None,
        Slot::Sub { kind, .. } => Some(kind),
    }
}

/// The kinds of the slots of a compound.
fn kinds_of_slots<'k>(alloc: Global, slots: &'k Slots) -> Result<Kinds<'k>, AllocError>
    ensures { IfOk result (λ kinds. map seen_kind kinds ≡ map (λ s. kind_of_slot (slot_tree s)) slots.now) }
{
    let mut kinds = Kinds::new(alloc);
    for slot in slots.as_slice() {
        push(&mut kinds, &kind_of(slot))?;
    }
    Ok(kinds)
}

/// The kind of an item.
fn kind_of_item<'k>(item: &Option<&'k Item>) -> Option<&'k Kind>
    ensures { seen_kind result ≡ kind_of_slot (item_slot item.now) }
{
    match item {
        None => None,
        Some(item) => Some(&item.kind),
    }
}

/// The kinds of the slots of the UAP.
fn kinds_of_items<'k>(alloc: Global, items: &SlotItems<'k>) -> Result<Kinds<'k>, AllocError>
    ensures { IfOk result (λ kinds. map seen_kind kinds ≡ map (λ s. kind_of_slot (item_slot s)) items.now) }
{
    let mut kinds = Kinds::new(alloc);
    for item in items.as_slice() {
        push(&mut kinds, &kind_of_item(item))?;
    }
    Ok(kinds)
}

/// The slots of the UAP, by the names of their items. Err is want of memory.
#[tactic(auto, using(crate::proofs::Indexing::whole))]
pub fn index_items<'k>(alloc: Global, items: &SlotItems<'k>) -> Result<Index<'k>, AllocError>
    ensures { IfOk result (λ index. Finds 1 (items_tree items.now) index) }
{
    Ok(Index {
        numbers: number_slot_items(alloc, items)?,
        kinds: kinds_of_items(alloc, items)?,
    })
}

/// The slots of a compound.
#[tactic(auto, using(crate::proofs::Indexing::whole))]
fn index_slots<'k>(alloc: Global, slots: &'k Slots) -> Result<Index<'k>, AllocError>
    ensures { IfOk result (λ index. Finds 1 (slots_tree slots.now) index) }
{
    Ok(Index {
        numbers: number_slots(alloc, slots)?,
        kinds: kinds_of_slots(alloc, slots)?,
    })
}

/// The slots below a kind, if there is one and it is a compound. Err is want of memory.
pub fn index_below<'k>(alloc: Global, kind: &Option<&'k Kind>) -> Result<Index<'k>, AllocError>
    ensures { IfOk result (λ index. FindsBelow (option_map kind_tree (option_copied kind.now)) index) }
{
    match kind {
        Some(Kind::Compound(slots)) => index_slots(alloc, slots),
        _ => Ok(Index::new(alloc)),
    }
}
