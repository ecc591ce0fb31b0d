//! The keys that records can lose, each with what is known of the keys behind it, so that those that stand where nothing is are
//! passed over together.
ghost use Rattle.std.specs.Prelude.{◌≡◌, ℕ, ◌+◌, ◌<◌, true, IsTrue, IfOk, is_none, List, get_or, length, reverse};
ghost use Rattle.ax_moves.specs.Lost.{AreLost, AreRuns, FallsWith, FitBehind, GoesOnBehind, IsFirst, IsJoined, IsLaterPart, KeyRuns, RunsFit, place_numbers};
ghost use Rattle.ax_moves.specs.declared.lost.LostKey.{LostKey};
ghost use Rattle.ax_relation.specs.declared.relation.RelationPath.{RelationPath};

use crate::marks::add_slot;
use ax_fspec::Presence;
use ax_relation::{RelationPath, RelationPaths};
use std::alloc::{AllocError, Global};

/// What is known at one of the numbers of a key's place: the FRN at depth 0, a slot number at each later one.
pub struct Run {
    pub slot: u32,
    /// Of so many keys right behind, the place has the same number at this depth.
    pub more: u32,
    /// Of so many keys right behind, the place has one of the numbers `later` at this depth.
    pub reach: u32,
    /// The numbers of these keys and of this one, as far as they are those of slots.
    pub later: Presence,
}

impl Drop for Run {
    fn drop(self) {
        let Run {
            slot: _slot,
            more: _more,
            reach: _reach,
            later: _later,
        } = self;
    }
}

/// A key that has no new place.
pub struct LostKey<'c> {
    pub path: &'c RelationPath,
    /// By depth, one for each number of its place.
    pub runs: Vec<Run>,
    /// So many keys right behind aren't there where this one isn't: later parts of the same item.
    pub absent: u32,
}

impl Drop for LostKey<'_> {
    fn drop(self) {
        let LostKey {
            path: _path,
            runs: _runs,
            absent: _absent,
        } = self;
    }
}

/// The number of a key's place at a depth.
fn number_at(path: &RelationPath, depth: usize) -> u32
    requires { depth < length (place_numbers path.now) }
    ensures { result ≡ get_or (place_numbers path.now) depth 0 }
{
    if depth == 0 {
        return path.old.frn;
    }
    path.old.steps.as_slice()[depth - 1]
}

/// The run of a key alone.
fn first_run(slot: u32) -> Run
    ensures { IsFirst slot result }
{
    let mut later = Presence::empty();
    add_slot(slot, &mut later);
    Run {
        slot,
        more: 0,
        reach: 0,
        later,
    }
}

/// The run of a key, by that of the key behind it.
fn joined_run(slot: u32, behind: &Run) -> Run
    ensures { IsJoined slot behind.now result }
{
    let mut later = behind.later;
    add_slot(slot, &mut later);
    let more = if behind.slot == slot {
        behind.more.saturating_add(1)
    } else {
        0
    };
    Run {
        slot,
        more,
        reach: behind.reach.saturating_add(1),
        later,
    }
}

/// The run of a key at a depth, by the runs of the key behind it from this depth on, and those by which its later ones are made:
/// none behind a number that differs.
fn run_of(slot: u32, behind: &[Run]) -> (Run, &[Run])
    ensures { GoesOnBehind slot behind.now result.0 result.1.now }
{
    let Some((run, later)) = behind.split_first() else {
        return (first_run(slot), behind);
    };
    let joined = joined_run(slot, run);
    if run.slot == slot {
        (joined, later)
    } else {
        (joined, &later[..0])
    }
}

/// The runs of a key, by those of the key behind it, if there is one.
fn runs_of(alloc: Global, path: &RelationPath, behind: &[Run]) -> Result<Vec<Run>, AllocError>
    ensures size { IfOk result (λ made. length made.items ≡ length (place_numbers path.now)) }
    ensures runs { IfOk result (λ made. (ks : List LostKey) → FitBehind 0 behind.now ks → RunsFit 0 made.items path.now ks) }
{
    let mut runs = Vec::new(alloc);
    let mut left = behind;
    for depth in 0..path.old.steps.as_slice().len() + 1 {
        let (run, later) = run_of(number_at(path, depth), left);
        runs.push(run)?;
        left = later;
    }
    Ok(runs)
}

/// Whether a part is there only where an earlier one is.
fn is_later(part: Option<u32>, other: Option<u32>) -> bool
    ensures { IsTrue result → IsLaterPart part other }
{
    match (part, other) {
        (Some(number), Some(behind)) => number <= behind,
        _ => false,
    }
}

/// Whether one key is sure not to be there where another isn't: it is of a later part of the same item.
fn falls_with(path: &RelationPath, behind: &RelationPath) -> bool
    ensures { IsTrue result → FallsWith path.now behind.now }
{
    path.old.frn == behind.old.frn
        && path.old.steps.as_slice() == behind.old.steps.as_slice()
        && is_later(path.part, behind.part)
}

/// A key that has no new place, before those that were made of the keys behind it, the last of them first.
fn lost_key<'c>(
    alloc: Global,
    path: &'c RelationPath,
    made: &[LostKey<'c>],
) -> Result<LostKey<'c>, AllocError>
    requires gone { is_none path.now.new ≡ true }
    requires runs { AreRuns (reverse made.now) }
    ensures path { IfOk result (λ key. key.path.now ≡ path.now) }
    ensures runs { IfOk result (λ key. KeyRuns key (reverse made.now)) }
{
    let Some((behind, _)) = made.split_last() else {
        let runs = runs_of(alloc, path, &[])?;
        return Ok(LostKey {
            path,
            runs,
            absent: 0,
        });
    };
    let runs = runs_of(alloc, path, behind.runs.as_slice())?;
    let absent = if falls_with(path, behind.path) {
        behind.absent.saturating_add(1)
    } else {
        0
    };
    Ok(LostKey { path, runs, absent })
}

/// The keys that have no new place, in order. They are made from the last to the first.
pub fn lost_keys(alloc: Global, paths: &RelationPaths) -> Result<Vec<LostKey<'_>>, AllocError>
    ensures { IfOk result (λ made. AreLost paths.now made.items) }
{
    let mut made = Vec::new(alloc);
    let mut left = paths.as_slice();
    while let Some((path, before)) = left.split_last() {
        left = before;
        if path.new.is_some() {
            continue;
        }
        let key = lost_key(alloc, path, made.as_slice())?;
        made.push(key)?;
    }
    made.reverse();
    Ok(made)
}
