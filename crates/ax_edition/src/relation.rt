ghost use Rattle.std.specs.Prelude.{◌≡◌, [], IfOk, OnOk, IfErr, map};
ghost use Rattle.ax_format.specs.Naming.{slot_named};
ghost use Rattle.ax_format.specs.OfCode.{HasNoFlaw};
ghost use Rattle.ax_edition.specs.Known.{kind_named, known_slots};
ghost use Rattle.ax_edition.specs.Relating.{related_between};
ghost use Rattle.ax_edition.specs.SlotItems.{items_tree};
ghost use Rattle.ax_edition.specs.Unrelated.{WhyUnrelated};
ghost use Rattle.ax_relation.specs.Known.{Knows};
ghost use Rattle.ax_relation.specs.Moves.{moves_of};
ghost use Rattle.ax_relation.specs.PlainMoves.{move_tree};
ghost use Rattle.ax_relation.specs.Relates.{Relates};

use crate::index::index_items;
use crate::known::know_items;
use crate::level::Level;
use crate::moves::move_items;
use crate::record_items::{SlotItems, slot_items};
use crate::relating::relate_items;
use ax_check::Accepted;
use ax_format::{Spec, of_category};
use ax_relation::{Known, Moves, Relation, RelationPaths};
use std::alloc::{AllocError, Global};
use thiserror::Error;

/// Why two specifications have no relation.
#[derive(Debug, Drop, Error)]
pub enum RelateError {
    /// They are of these two categories.
    #[error("category {old} and category {new}")]
    OtherCategory { old: u8, new: u8 },
    #[error("out of memory")]
    OutOfMemory,
}

/// The keys of the old items of a category, with their places in both editions.
#[tactic(auto, using(crate::proofs::Relations::paths_by_rule))]
fn paths_between(
    alloc: Global,
    category: u8,
    old: &SlotItems<'_>,
    new: &SlotItems<'_>,
) -> Result<RelationPaths, AllocError>
    ensures { IfOk result (λ made. made ≡ related_between category (items_tree old.now) (items_tree new.now)) }
{
    let text = of_category(alloc, category)?;
    let level = Level::of_record(alloc, new)?;
    relate_items(alloc, text, old, &level)
}

/// The paths of the old items, each with what the new ones share at it.
#[tactic(auto, using(crate::proofs::Relations::known_by_rule))]
fn known_between(
    alloc: Global,
    old: &SlotItems<'_>,
    new: &SlotItems<'_>,
) -> Result<Known, AllocError>
    ensures { IfOk result (λ known. Knows (known_slots [] (items_tree old.now) (kind_named (items_tree new.now))) known) }
{
    let index = index_items(alloc, new)?;
    know_items(alloc, old, &index)
}

/// What moves from the old items to the new ones.
#[tactic(auto, using(crate::proofs::Relations::moves_by_rule))]
fn moves_between(
    alloc: Global,
    old: &SlotItems<'_>,
    new: &SlotItems<'_>,
) -> Result<Moves, AllocError>
    ensures { IfOk result (λ made. map move_tree made ≡ moves_of 1 (items_tree new.now) (λ name. slot_named 1 name (items_tree old.now))) }
{
    let index = index_items(alloc, old)?;
    move_items(alloc, new, &index)
}

/// The relation of two specifications without flaw of one category.
fn relation_of(alloc: Global, old: &Spec, new: &Spec) -> Result<Relation, AllocError>
    requires old_no_flaw { HasNoFlaw old.now }
    requires new_no_flaw { HasNoFlaw new.now }
    requires category { old.now.category ≡ new.now.category }
    ensures { IfOk result (λ relation. Relates old.now new.now relation) }
{
    let old_items = slot_items(alloc, old)?;
    let new_items = slot_items(alloc, new)?;
    let paths = paths_between(alloc, old.category, &old_items, &new_items)?;
    let moves = moves_between(alloc, &old_items, &new_items)?;
    let known = known_between(alloc, &old_items, &new_items)?;
    Ok(Relation::new(paths, known, moves))
}

/// The relation of two editions. OtherCategory comes exactly where the categories differ.
pub fn relate(alloc: Global, old: &Accepted, new: &Accepted) -> Result<Relation, RelateError>
    ensures relation { IfOk result (λ relation. Relates old.now new.now relation) }
    ensures other { IfErr result (WhyUnrelated old.now new.now) }
    ensures same_category { OnOk result (old.now.category ≡ new.now.category) }
{
    let (old, new) = (old.spec(), new.spec());
    if old.category != new.category {
        return Err(RelateError::OtherCategory {
            old: old.category,
            new: new.category,
        });
    }
    match relation_of(alloc, old, new) {
        Ok(relation) => Ok(relation),
        Err(_) => Err(RelateError::OutOfMemory),
    }
}
