//! Plans of one level that ask one slot alone, and the same: a group of them would say nothing that each doesn't, so they stand in one row.
ghost use Rattle.std.specs.Prelude.{◌≡◌, ◌*◌, ◌≤◌, ◌++◌, ◌∷◌, [], length, IfOk, OnOk};
ghost use Rattle.ax_expressions.specs.PlanRows.{plans_in};
ghost use Rattle.ax_expressions.specs.Plans.{AreAlike};

use crate::grouping::{TOGETHER, asked_by, several};
use crate::plan::{Plan, Plans};
use crate::slot_sets::is_empty;
use std::alloc::{AllocError, Global};
use std::mem;

/// The first slot that a plan asks, or 0.
fn first_slot(plan: &Plan) -> u32
    ensures { result ≤ 126 }
{
    let mut asked = asked_by(plan);
    match asked.take_first() {
        Some(slot) => slot,
        None => 0,
    }
}

/// The slot that a plan asks alone, or 0.
fn only_asked(plan: &Plan) -> u32 {
    let mut asked = asked_by(plan);
    match asked.take_first() {
        Some(slot) if is_empty(&asked) => slot,
        _ => 0,
    }
}

/// Where a plan stands among those of its level: by the first slot that it asks, and before those that ask others too.
pub fn order_of(plan: &Plan) -> u32 {
    let first = 2 * first_slot(plan);
    if only_asked(plan) > 0 {
        first
    } else {
        first + 1
    }
}

/// Whether a row begins with a plan that asks that slot alone: as many as stand together in a group do, it and the last ones before it.
/// The plans are in their order.
fn begins_row(before: &[Plan], slot: u32) -> bool {
    let others = TOGETHER as usize - 1;
    slot > 0 && before.len() >= others && only_asked(&before[before.len() - others]) == slot
}

/// The plans of a level, those in rows made one: the plans that are made, and the row that is open, of plans that ask the slot `slot`
/// alone and the same. Where no row is open the slot is 0.
#[derive(Drop)]
struct PlanRows {
    made: Vec<Plan>,
    row: Plans,
    slot: u32,
}

/// Makes one plan of the row that is open, if one is.
fn close_row(alloc: Global, all: bool, rows: &mut PlanRows) -> Result<(), AllocError>
    ensures alike { OnOk result (AreAlike all (plans_in rows.new) (plans_in rows.old)) }
    ensures none { OnOk result (rows.new.row ≡ []) }
{
    if rows.row.count() == 0 {
        return Ok(());
    }
    let full = mem::replace(&mut rows.row, Plans::new(alloc));
    rows.made.push(several(all, full))?;
    Ok(())
}

/// Closes the row that is open, if the next plan, which asks the slot `own` alone, isn't of it, and opens its own one, if it begins
/// one. The plans before it are those that come after.
fn open_row(
    alloc: Global,
    all: bool,
    before: &[Plan],
    own: u32,
    rows: &mut PlanRows,
) -> Result<(), AllocError>
    ensures alike { OnOk result (AreAlike all (plans_in rows.new) (plans_in rows.old)) }
    ensures room { OnOk result (length rows.new.row ≤ 4294967294) }
{
    if own == rows.slot && rows.row.count() < u32::MAX {
        return Ok(());
    }
    close_row(alloc, all, rows)?;
    rows.slot = if begins_row(before, own) { own } else { 0 };
    Ok(())
}

/// Adds a plan to the row, if one is open, or else to the plans that are made.
fn put(all: bool, plan: Plan, rows: &mut PlanRows) -> Result<(), AllocError>
    requires room { length rows.old.row ≤ 4294967294 }
    ensures { OnOk result (AreAlike all (plans_in rows.new) (rows.old.made.items ++ (rows.old.row ++ plan ∷ []))) }
{
    if rows.slot > 0 {
        rows.row.push(plan)
    } else {
        rows.made.push(plan)?;
        Ok(())
    }
}

/// These plans, which stand in their order, those in rows as one plan each.
pub fn joined_by_slot(alloc: Global, all: bool, plans: Vec<Plan>) -> Result<Vec<Plan>, AllocError>
    ensures { IfOk result (λ made. AreAlike all made.items plans.items) }
{
    let mut left = plans;
    let mut rows = PlanRows {
        made: Vec::new(alloc),
        row: Plans::new(alloc),
        slot: 0,
    };
    while let Some(plan) = left.pop() {
        let own = only_asked(&plan);
        open_row(alloc, all, left.as_slice(), own, &mut rows)?;
        put(all, plan, &mut rows)?;
    }
    close_row(alloc, all, &mut rows)?;
    Ok(rows.made)
}
