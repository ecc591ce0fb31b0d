//! The keys that a conversion may miss, found before the first block.
ghost use Rattle.std.specs.Prelude.{◌≡◌, ◌≤◌, ◌<◌, true, length, take, IfOk};
ghost use Rattle.std.specs.List.{AllByRecursion};
ghost use Rattle.ax_lists.specs.Sizes.{list_bound};
ghost use Rattle.ax_relation.specs.declared.relation.RelationPath.{RelationPath};
ghost use Rattle.ax_rescale.specs.OverItems.{OverEditions};
ghost use Rattle.ax_rescale.specs.Watching.{AreWatched, begins, target_of};

use crate::beside::alike_place;
use ax_edition::{Index, SlotItems};
use ax_format::Place;
use ax_lists::Sequence;
use ax_relation::{RelationPath, RelationPaths};
use std::alloc::{AllocError, Global};

/// A key of the old edition, as it is looked for in each record.
#[derive(Drop)]
pub(crate) struct Watch<'x> {
    pub(crate) path: &'x RelationPath,
    /// Of a path that isn't shared, whose kinds are alike: where its converted value stands.
    pub(crate) target: Option<Place>,
    /// How many of the next keys stand below this one's place, and so are absent where nothing stands there.
    pub(crate) skip: u32,
}

/// Keys, in the relation's order.
pub(crate) type Watches<'x> = Sequence<Watch<'x>>;

/// Whether the place's numbers begin with those of the front.
fn begins(front: &Place, place: &Place) -> bool
    ensures { result ≡ begins front.now place.now }
{
    front.frn == place.frn && place.steps.as_slice().starts_with(front.steps.as_slice())
}

/// How many of the next keys stand at the place or below it.
fn run_below(place: &Place, later: &[RelationPath]) -> u32
    requires { length later.now < list_bound }
    ensures few { result ≤ length later.now }
    ensures below { AllByRecursion (λ (q : RelationPath). begins place.now q.old ≡ true) (take result later.now) }
{
    let mut count: u32 = 0;
    for one in later {
        if !begins(place, &one.old) {
            return count;
        }
        count += 1;
    }
    count
}

/// Where the converted value of a key stands, if it is a path that can be converted.
fn target_of(
    alloc: Global,
    old: &SlotItems<'_>,
    new: &Index<'_>,
    path: &RelationPath,
) -> Result<Option<Place>, AllocError>
    ensures { OverEditions old.now new.now (λ olds news. IfOk result (λ made. made ≡ target_of olds news path.now)) }
{
    if path.new.is_some() || path.part.is_some() {
        return Ok(None);
    }
    alike_place(alloc, old, new, &path.old)
}

/// The keys of a relation, as they are looked for.
pub(crate) fn watch_all<'x>(
    alloc: Global,
    paths: &'x RelationPaths,
    old: &SlotItems<'_>,
    new: &Index<'_>,
) -> Result<Watches<'x>, AllocError>
    ensures watched { OverEditions old.now new.now (λ olds news. IfOk result (λ made. AreWatched olds news made paths.now)) }
    ensures all { IfOk result (λ made. length made ≡ length paths.now) }
{
    let paths = paths.as_slice();
    let mut made = Watches::with_capacity(alloc, paths.len() as u32)?;
    for at in 0..paths.len() {
        let path = &paths[at];
        let target = target_of(alloc, old, new, path)?;
        let (_, later) = paths.split_at(at + 1);
        let skip = run_below(&path.old, later);
        made.push(Watch { path, target, skip })?;
    }
    Ok(made)
}
