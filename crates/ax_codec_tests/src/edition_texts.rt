//! Relations of specifications from texts, and what they tell as texts.

use crate::fixtures::accepted;
use ax_edition::{Move, Moves, RelateError, Relation, RelationPath, relate};
use ax_model::{Path, Place};
use std::alloc::{AllocError, Global};
use std::process::Abort;

/// The relation of the specifications that two texts spell, or why they have none.
pub(crate) fn relation_of(
    rt: &impl Abort,
    alloc: Global,
    old: &str,
    new: &str,
) -> Result<Relation, RelateError> {
    let old = accepted(rt, alloc, old);
    let new = accepted(rt, alloc, new);
    relate(alloc, &old, &new)
}

pub(crate) fn related(rt: &impl Abort, alloc: Global, old: &str, new: &str) -> Relation {
    relation_of(rt, alloc, old, new).expect(rt, "editions of one category")
}

/// The field reference number, and the steps.
fn place_told(alloc: Global, place: &Place) -> Result<String, AllocError> {
    format!(in alloc; "{} {:?}", place.frn, place.steps.as_slice())
}

/// The new place of a path, or that it is lost.
fn new_place_told(alloc: Global, path: &RelationPath) -> Result<String, AllocError> {
    match &path.new {
        Some(place) => format!(in alloc; "to {} {:?}", place.frn, place.steps.as_slice()),
        None => String::from_str(alloc, "lost"),
    }
}

/// The number of a part, if it is one.
fn part_told(alloc: Global, path: &RelationPath) -> Result<String, AllocError> {
    match path.part {
        Some(number) => format!(in alloc; " (part {number})"),
        None => String::from_str(alloc, ""),
    }
}

/// The text of a path, the number of its part, its old place, and its new one.
pub(crate) fn path_told(alloc: Global, path: &RelationPath) -> Result<String, AllocError> {
    let text = String::from_utf8_lossy(alloc, path.text.as_slice())?;
    let part = part_told(alloc, path)?;
    let old = place_told(alloc, &path.old)?;
    let new = new_place_told(alloc, path)?;
    format!(in alloc; "{text}{part} at {old} {new}")
}

/// The paths that aren't shared, and how many are.
fn lost_told(rt: &impl Abort, alloc: Global, relation: &Relation) -> String {
    let mut told = String::new(alloc);
    let mut shared: u32 = 0;
    for path in relation.paths().as_slice() {
        if path.new.is_some() {
            shared = shared.saturating_add(1);
        } else {
            add_lost(rt, alloc, &mut told, path);
        }
    }
    format!(in alloc; "{told}{shared} shared").expect(rt, "memory")
}

/// Adds the text of a path.
fn add_lost(rt: &impl Abort, alloc: Global, told: &mut String, path: &RelationPath) {
    let text = String::from_utf8_lossy(alloc, path.text.as_slice()).expect(rt, "memory");
    told.push_str(text.as_str()).expect(rt, "memory");
    told.push_str(" ").expect(rt, "memory");
}

/// Asserts which paths of two texts aren't shared, and how many are.
pub(crate) fn are_related_as(rt: &impl Abort, alloc: Global, old: &str, new: &str, wanted: &str) {
    let relation = related(rt, alloc, old, new);
    let told = lost_told(rt, alloc, &relation);
    same_relation(rt, told.as_str(), wanted, old, new);
}

/// Asserts that what is told of the relation of two texts is as wanted.
fn same_relation(rt: &impl Abort, found: &str, wanted: &str, old: &str, new: &str) {
    assert!(rt;
        found == wanted,
        "{found:?} and not {wanted:?} of {old} and {new}"
    );
}

/// Whether a path, without its category, is shared, and how many first parts are.
pub(crate) fn shares(
    rt: &impl Abort,
    alloc: Global,
    relation: &Relation,
    text: &str,
) -> (bool, u32) {
    assert!(rt; text.len() <= 100);
    let path = Path::of(alloc, text.as_bytes()).expect(rt, "memory");
    let path = path.expect(rt, "a path");
    (relation.shared(&path), relation.shared_parts(&path))
}

/// The moves of one list, as `old to new` with how many first parts move and how many move below.
pub(crate) fn moves_told(alloc: Global, moves: &Moves) -> Result<String, AllocError> {
    let mut told = String::new(alloc);
    for one in moves.as_slice() {
        let Move {
            old,
            new,
            parts,
            below,
        } = one;
        let below = below.count();
        let line = format!(in alloc; "{old} to {new} with {parts} parts, {below} below; ")?;
        told.push_str(line.as_str())?;
    }
    Ok(told)
}
