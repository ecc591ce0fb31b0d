//! Where a path leads.
ghost use Rattle.std.specs.Prelude.{◌≡◌, ◌∷◌, ◌++◌, [], map, IfOk, OnOk};
ghost use Rattle.ax_format.specs.Plain.{fixed_tree, kind_tree, part_tree, spec_tree};
ghost use Rattle.ax_format.specs.Tree.{extended};
ghost use Rattle.ax_check.specs.Places.{fixed_steps, kind_steps, place_of};
ghost use Rattle.ax_check.specs.Walking.{Leads};

use crate::accepted::Accepted;
use ax_format::{
    Fixed, Kind, LastPart, Name, Parts, Path, Place, Steps, find_frn, find_in_parts, find_member,
    find_slot,
};
use std::alloc::{AllocError, Global};

/// Appends a step. A list of more than 2^32 - 1 steps is a want of memory.
fn go_down(steps: &mut Steps, step: u32) -> Result<(), AllocError>
    ensures { OnOk result (steps.new ≡ steps.old ++ step ∷ []) }
{
    if steps.count() == u32::MAX {
        return Err(AllocError);
    }
    steps.push(step)
}

/// Whether the names lead down from the fixed kind. If so, their steps are appended.
#[tactic(auto, using(crate::proofs::Walks::fixed_walks))]
fn walk_fixed(steps: &mut Steps, fixed: &Fixed, names: &[Name]) -> Result<bool, AllocError>
    ensures { IfOk result (Leads (fixed_steps names.now (fixed_tree fixed.now)) steps.old steps.new) }
{
    let Some((name, later)) = names.split_first() else {
        return Ok(true);
    };
    let Fixed::Group(members) = fixed else {
        return Ok(false);
    };
    let Some((number, inner)) = find_member(members, name) else {
        return Ok(false);
    };
    go_down(steps, number)?;
    walk_fixed(steps, inner, later)
}

/// Whether a name and those after it lead down from an extended or closed kind. If so, the steps to the part, to its member and
/// down from there are appended.
#[tactic(auto, using(crate::proofs::Walks::part_walks))]
fn walk_parts(
    steps: &mut Steps,
    last: LastPart,
    parts: &Parts,
    name: &Name,
    later: &[Name],
) -> Result<bool, AllocError>
    ensures { IfOk result (Leads (kind_steps (name.now ∷ later.now) (extended last (map part_tree parts.now))) steps.old steps.new) }
{
    let Some((part, member, inner)) = find_in_parts(parts, name) else {
        return Ok(false);
    };
    go_down(steps, part)?;
    go_down(steps, member)?;
    walk_fixed(steps, inner, later)
}

/// Whether the names lead down from the kind. If so, their steps are appended.
#[tactic(auto, using(crate::proofs::Walks::kind_walks))]
fn walk_kind(steps: &mut Steps, kind: &Kind, names: &[Name]) -> Result<bool, AllocError>
    ensures { IfOk result (Leads (kind_steps names.now (kind_tree kind.now)) steps.old steps.new) }
{
    let Some((name, later)) = names.split_first() else {
        return Ok(true);
    };
    match kind {
        Kind::Fixed(fixed) => walk_fixed(steps, fixed, names),
        Kind::Extended { last, parts } => walk_parts(steps, *last, parts, name, later),
        Kind::Compound(slots) => {
            let Some((number, inner)) = find_slot(slots, name) else {
                return Ok(false);
            };
            go_down(steps, number)?;
            walk_kind(steps, inner, later)
        }
        _ => Ok(false),
    }
}

impl Accepted {
    /// The place of a path. None comes exactly where the path is no place: where its first name is no item that stands
    /// in the UAP, or a later one is no subitem of a compound and no member of a group or of the parts of an extended or
    /// closed item.
    #[tactic(auto, using(crate::proofs::Walks::resolved))]
    pub fn resolve(&self, alloc: Global, path: &Path) -> Result<Option<Place>, AllocError>
        ensures { IfOk result (λ made. made ≡ place_of (spec_tree self.now) path.now) }
    {
        let spec = self.spec();
        let Some((name, names)) = path.as_slice().split_first() else {
            return Ok(None);
        };
        let Some(frn) = find_frn(&spec.uap, name) else {
            return Ok(None);
        };
        let Some(item) = spec.item(name) else {
            return Ok(None);
        };
        let mut steps = Steps::new(alloc);
        if !walk_kind(&mut steps, &item.kind, names)? {
            return Ok(None);
        }
        Ok(Some(Place { frn, steps }))
    }
}
