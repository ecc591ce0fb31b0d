//! Rows made: one for each presence octet and each value of its marks.
ghost use Rattle.std.specs.Prelude.{◌≡◌, ◌↔◌, ◌+◌, ◌-◌, ◌*◌, ◌/◌, ◌%◌, ◌<◌, ◌≤◌, ◌++◌, [], length, drop, get_or, IfOk, OnOk, IsTrue};
ghost use Rattle.std.specs.List.{AllByRecursion};
ghost use Rattle.ax_fspec.specs.Marks.{seven};
ghost use Rattle.ax_rows.specs.Rows.{row_of, AddsSlot, CanBeMarked, HaveRow, IsRowIfAny, AreRows, AddsOnce, Extends};

use crate::sharing::earlier_place;
use crate::step::Step;
use std::alloc::AllocError;

/// Where a row would begin that there isn't.
pub const NO_ROW: u32 = u32::MAX;

/// The most octets of a fixed slot that a row passes over.
const MOST: u32 = 65535;

/// Whether the first of these slots is there, isn't spare and has at most 65,535 octets.
fn can_be_marked(octets: &[u32], slots: &[u32]) -> bool
    requires { AllByRecursion (λ link. link ≤ length octets.now) slots.now }
    ensures { IsTrue result ↔ CanBeMarked octets.now slots.now }
{
    match slots.split_first() {
        Some((link, _)) => *link > 0 && octets[*link as usize - 1] <= MOST,
        None => false,
    }
}

/// The slots after the first.
fn after_first(slots: &[u32]) -> &[u32]
    ensures { result.now ≡ drop 1 slots.now }
{
    match slots.split_first() {
        Some((_, later)) => later,
        None => slots,
    }
}

/// Whether each of these slots that the seven low bits of `marks` mark can be marked.
fn have_row(octets: &[u32], slots: &[u32], marks: u8) -> bool
    requires { AllByRecursion (λ link. link ≤ length octets.now) slots.now }
    ensures { IsTrue result ↔ HaveRow octets.now slots.now (seven marks) }
{
    let mut left = slots;
    let mut count: u32 = 7;
    while count > 0 {
        count -= 1;
        if marks >> count & 1 == 1 {
            if !can_be_marked(octets, left) {
                return false;
            }
        }
        left = after_first(left);
    }
    true
}

/// Appends what a marked slot adds to a row where `skip` octets are still to be passed over. Ok is how many are then.
fn push_slot(octets: &[u32], link: u32, skip: u32, steps: &mut Vec<Step>) -> Result<u32, AllocError>
    requires link { (0 < link) × (link ≤ length octets.now) }
    requires run { get_or octets.now (link - 1) 0 ≤ 65535 }
    requires skip { skip ≤ 393210 }
    ensures row { IfOk result (λ now. AddsSlot (get_or octets.now (link - 1) 0) link skip steps.old.items steps.new.items now) }
    ensures small { IfOk result (λ now. now ≤ skip + 65535) }
    ensures kept { Extends steps.old.items steps.new.items }
{
    let run = octets[link as usize - 1];
    if run == 0 {
        steps.push(Step { skip, link })?;
        return Ok(0);
    }
    Ok(skip + run)
}

/// Appends the row of these slots where the seven low bits of `marks` mark them.
fn push_row(
    octets: &[u32],
    slots: &[u32],
    marks: u8,
    steps: &mut Vec<Step>,
) -> Result<(), AllocError>
    requires links { AllByRecursion (λ link. link ≤ length octets.now) slots.now }
    requires has { HaveRow octets.now slots.now (seven marks) }
    ensures row { OnOk result (steps.new.items ≡ steps.old.items ++ row_of octets.now slots.now (seven marks) 0) }
    ensures kept { Extends steps.old.items steps.new.items }
{
    let mut left = slots;
    let mut skip: u32 = 0;
    let mut count: u32 = 7;
    while let Some((link, later)) = left.split_first() {
        if count == 0 {
            break;
        }
        count -= 1;
        left = later;
        if marks >> count & 1 == 1 {
            skip = push_slot(octets, *link, skip, steps)?;
        }
    }
    steps.push(Step { skip, link: 0 })?;
    Ok(())
}

/// Appends the row, where these slots have one and it doesn't stand there yet, at step `from` or later. Ok is the number of its first
/// step, or `NO_ROW`.
fn push_row_if_any(
    octets: &[u32],
    slots: &[u32],
    marks: u8,
    from: usize,
    steps: &mut Vec<Step>,
) -> Result<u32, AllocError>
    requires links { AllByRecursion (λ link. link ≤ length octets.now) slots.now }
    ensures row { IfOk result (λ first. IsRowIfAny octets.now slots.now (seven marks) steps.new.items first) }
    ensures once { OnOk result (AddsOnce from steps.old.items steps.new.items) }
    ensures kept { Extends steps.old.items steps.new.items }
{
    if !have_row(octets, slots, marks) {
        return Ok(NO_ROW);
    }
    let first = steps.len();
    if first >= NO_ROW as usize {
        return Err(AllocError);
    }
    push_row(octets, slots, marks, steps)?;
    if let Some(place) = earlier_place(steps.as_slice(), from, first) {
        steps.truncate(first);
        return Ok(place as u32);
    }
    Ok(first as u32)
}

/// The slots from those of presence octet `index` on.
fn slots_from(slots: &[u32], index: u32) -> &[u32]
    requires { index < 18 }
    ensures { result.now ≡ drop (7 * index) slots.now }
{
    let first = 7 * index as usize;
    if first < slots.len() {
        &slots[first..]
    } else {
        &slots[slots.len()..]
    }
}

/// Appends the rows of at most 126 slots, and where they begin: by presence octet, and by the value of its marks. Equal rows of a
/// presence octet stand there once. Those of two presence octets lead over different slots, so only rows that end at once could be equal.
pub(crate) fn make_rows(
    octets: &[u32],
    slots: &[u32],
    start: &mut Vec<u32>,
    steps: &mut Vec<Step>,
) -> Result<(), AllocError>
    requires links { AllByRecursion (λ link. link ≤ length octets.now) slots.now }
    requires few { length slots.now ≤ 126 }
    requires empty { start.old.items ≡ [] }
    ensures { OnOk result (AreRows octets.now slots.now start.new.items steps.new.items) }
{
    let count = (slots.len() as u32 + 6) / 7;
    let mut from = 0;
    for place in 0..128 * count {
        if place % 128 == 0 {
            from = steps.len();
        }
        let first = push_row_if_any(
            octets,
            slots_from(slots, place / 128),
            (place % 128) as u8,
            from,
            steps,
        )?;
        start.push(first)?;
    }
    Ok(())
}
