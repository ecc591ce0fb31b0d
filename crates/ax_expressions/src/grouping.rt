//! Plans of one level in groups, so that those of items that a record hasn't are passed over together.
ghost use Rattle.std.specs.Prelude.{◌≡◌, ◌+◌, ◌*◌, ◌≤◌, ◌++◌, length, IfOk, OnOk};
ghost use Rattle.ax_expressions.specs.Plans.{AreAlike, IsLevel, asked_by, joined, plan_tree, said_of_none};

use crate::plan::{Plan, Plans};
use crate::same_slot::{joined_by_slot, order_of};
use crate::slot_sets::{add_slots, is_empty, only_slot};
use ax_fspec::Presence;
use std::alloc::{AllocError, Global};
use std::mem;

/// So many plans or groups stand together in one group. A record is asked of each group on the way to a plan of an item that it
/// has, and of the others in them: few at each of a few steps.
pub const TOGETHER: u32 = 8;

/// The slots that a plan asks.
#[tactic(auto, using(crate::proofs::PlanTrees::asking))]
pub fn asked_by(plan: &Plan) -> Presence
    ensures { result ≡ asked_by (plan_tree plan.now) }
{
    match plan {
        Plan::Always { .. } => Presence::empty(),
        Plan::Asks { slot, .. } => only_slot(*slot),
        Plan::Not { plan } => asked_by(plan),
        Plan::Several { asked, .. } => *asked,
    }
}

/// What a plan says where none of these is marked.
#[tactic(auto, using(crate::proofs::PlanTrees::quiet))]
pub fn said_of_none(plan: &Plan) -> bool
    ensures { result ≡ said_of_none (plan_tree plan.now) }
{
    match plan {
        Plan::Always { holds } => *holds,
        Plan::Asks { .. } => false,
        Plan::Not { plan } => !said_of_none(plan),
        Plan::Several { absent, .. } => *absent,
    }
}

/// Both, or one of them.
fn joined(all: bool, one: bool, other: bool) -> bool
    ensures { result ≡ joined all one other }
{
    if all { one && other } else { one || other }
}

/// The plan of several: each of them, or some.
pub fn several(all: bool, plans: Plans) -> Plan
    ensures { IsLevel all plans result }
{
    let mut asked = Presence::empty();
    let mut absent = all;
    for plan in plans.as_slice() {
        add_slots(&asked_by(plan), &mut asked);
        absent = joined(all, absent, said_of_none(plan));
    }
    if is_empty(&asked) {
        return Plan::Always { holds: absent };
    }
    Plan::Several {
        all,
        asked,
        absent,
        plans,
    }
}

/// Makes one plan of the latest ones, if they are as many as stand together.
fn close_full(
    alloc: Global,
    all: bool,
    made: &mut Vec<Plan>,
    latest: &mut Plans,
) -> Result<(), AllocError>
    ensures alike { OnOk result (AreAlike all (made.new.items ++ latest.new) (made.old.items ++ latest.old)) }
    ensures few { OnOk result (8 * length made.new.items + length latest.new ≤ 8 * length made.old.items + length latest.old) }
    ensures room { OnOk result (length latest.new ≤ 7) }
{
    if latest.count() < TOGETHER {
        return Ok(());
    }
    let full = mem::replace(latest, Plans::new(alloc));
    made.push(several(all, full))?;
    Ok(())
}

/// Groups of these plans, which join as they do.
fn groups_of(alloc: Global, all: bool, plans: Vec<Plan>) -> Result<Vec<Plan>, AllocError>
    ensures alike { IfOk result (λ made. AreAlike all made.items plans.items) }
    ensures few { IfOk result (λ made. 2 ≤ length plans.items → length made.items + 1 ≤ length plans.items) }
{
    let mut left = plans;
    let mut made = Vec::new(alloc);
    let mut latest = Plans::new(alloc);
    while let Some(plan) = left.pop() {
        close_full(alloc, all, &mut made, &mut latest)?;
        latest.push(plan)?;
    }
    made.push(several(all, latest))?;
    Ok(made)
}

/// The plan of one level: each of these plans, or some, whatever their order. Those that ask one slot alone, and the same, stand in one
/// row where there are as many as in a group, and those whose first slots are near stand together, in groups of groups.
pub fn grouped(alloc: Global, all: bool, plans: Vec<Plan>) -> Result<Plan, AllocError>
    ensures { IfOk result (IsLevel all plans.items) }
{
    let mut level = plans;
    level.sort_by_key(order_of)?;
    level = joined_by_slot(alloc, all, level)?;
    while level.len() > 1 {
        level = groups_of(alloc, all, level)?;
    }
    match level.pop() {
        Some(plan) => Ok(plan),
        None => Ok(Plan::Always { holds: all }),
    }
}
