//! The flaws of a specification, in their order.
ghost use Rattle.std.specs.Prelude.{◌≡◌, ◌∷◌, ◌++◌, [], codes, map, IfOk, OnOk};
ghost use Rattle.ax_format.specs.Flaws.{items_flaws};
ghost use Rattle.ax_format.specs.OfCode.{spec_flaws};
ghost use Rattle.ax_format.specs.Paths.{at};
ghost use Rattle.ax_format.specs.Plain.{item_tree};
ghost use Rattle.ax_check.specs.Members.{item_flaws, placed_slot_flaws, with_uap_slot, item_names, lists_flaws, uap_part_flaws};
ghost use Rattle.ax_check.specs.Names.{listed, AreSame};

use crate::fixed_flaws::{enter_at, note};
use crate::kind_flaws::{find_in_kind, note_count};
use crate::names::{Names, has};
use crate::texts::at_uap;
use ax_format::{FlawKind, Flaws, Item, Items, Spec, Text, UapSlot, of_category};
use std::alloc::{AllocError, Global};

/// The flaws of one item after others of these names, which gain its own.
fn find_in_item<'s>(
    alloc: Global,
    found: &mut Flaws,
    path: &Text,
    names: &mut Names<'s>,
    item: &'s Item,
) -> Result<(), AllocError>
    ensures flaws { OnOk result (found.new ≡ found.old ++ item_flaws path.now (listed names.old.set) (item_tree item.now)) }
    ensures names { OnOk result (AreSame (listed names.new.set) (item.now.name ∷ listed names.old.set)) }
{
    let name = &item.name;
    let (path, known) = enter_at(alloc, path, names, name)?;
    note(alloc, found, known, FlawKind::DuplicateItem, &path)?;
    find_in_kind(alloc, found, FlawKind::NotOctets, &path, &item.kind)
}

/// The flaws of the items. The names gain theirs.
#[tactic(auto, using(crate::proofs::ItemLists::items))]
fn find_in_items<'s>(
    alloc: Global,
    found: &mut Flaws,
    path: &Text,
    names: &mut Names<'s>,
    items: &'s Items,
) -> Result<(), AllocError>
    requires { listed names.old.set ≡ [] }
    ensures flaws { OnOk result (found.new ≡ found.old ++ items_flaws path.now [] (map item_tree items.now)) }
    ensures names { OnOk result (AreSame (listed names.new.set) (item_names items.now)) }
{
    for item in items.as_slice() {
        find_in_item(alloc, found, path, names, item)?;
    }
    Ok(())
}

/// What the flaws of the slots of a UAP are told by: the path of the UAP, and the names of the items.
#[derive(Clone, Copy)]
pub(crate) struct UapPlace<'u, 's> {
    path: &'u Text,
    items: &'u Names<'s>,
}

/// The flaw of one named slot of the UAP, if it has one, after others of these names, which gain its own.
fn find_in_uap_slot<'s>(
    alloc: Global,
    found: &mut Flaws,
    uap: UapPlace<'_, 's>,
    names: &mut Names<'s>,
    slot: &'s UapSlot,
) -> Result<(), AllocError>
    ensures flaws { OnOk result (found.new ≡ found.old ++ placed_slot_flaws uap.entry (listed names.old.set) slot.now) }
    ensures names { OnOk result (AreSame (listed names.new.set) (with_uap_slot (listed names.old.set) slot.now)) }
{
    match slot {
        UapSlot::Spare => Ok(()),
        UapSlot::Item(name) => {
            let (path, known) = enter_at(alloc, uap.path, names, name)?;
            if has(uap.items, name) {
                note(alloc, found, known, FlawKind::RepeatedInUap, &path)
            } else {
                note(alloc, found, true, FlawKind::UnknownInUap, &path)
            }
        }
    }
}

/// The flaws at the path of the UAP, over the names of the items.
#[tactic(auto, using(crate::proofs::UapLists::slots))]
fn find_in_uap<'s>(
    alloc: Global,
    found: &mut Flaws,
    path: &Text,
    spec: &'s Spec,
    items: &Names<'s>,
) -> Result<(), AllocError>
    requires { AreSame (listed items.now.set) (item_names spec.now.items) }
    ensures { OnOk result (found.new ≡ found.old ++ uap_part_flaws path.now spec.now) }
{
    note_count(alloc, found, spec.uap.count(), path)?;
    let uap = UapPlace { path, items };
    let mut names = Names::new(alloc);
    for slot in spec.uap.as_slice() {
        find_in_uap_slot(alloc, found, uap, &mut names, slot)?;
    }
    Ok(())
}

/// The flaws of each item, then those of the UAP, below the path of a category. The names gain those of the items.
#[tactic(auto, using(crate::proofs::UapLists::both_parts))]
fn find_in_lists<'s>(
    alloc: Global,
    found: &mut Flaws,
    path: &Text,
    names: &mut Names<'s>,
    spec: &'s Spec,
) -> Result<(), AllocError>
    requires { listed names.old.set ≡ [] }
    ensures { OnOk result (found.new ≡ found.old ++ lists_flaws path.now spec.now) }
{
    find_in_items(alloc, found, path, names, &spec.items)?;
    let path = at_uap(alloc, path)?;
    find_in_uap(alloc, found, &path, spec, names)
}

/// The flaws of each item, then those of the UAP.
#[tactic(auto, using(crate::proofs::UapLists::at_category))]
fn find_in_spec(alloc: Global, found: &mut Flaws, spec: &Spec) -> Result<(), AllocError>
    ensures { OnOk result (found.new ≡ found.old ++ spec_flaws spec.now) }
{
    let path = of_category(alloc, spec.category)?;
    let mut names = Names::new(alloc);
    find_in_lists(alloc, found, &path, &mut names, spec)
}

/// The flaws of a specification, in their order: those of each item, then those of the UAP. Want of memory, also
/// for more than 2^32 - 1 flaws, is the one refusal.
pub fn flaws(alloc: Global, spec: &Spec) -> Result<Flaws, AllocError>
    ensures { IfOk result (λ made. made ≡ spec_flaws spec.now) }
{
    let mut found = Flaws::new(alloc);
    find_in_spec(alloc, &mut found, spec)?;
    Ok(found)
}
