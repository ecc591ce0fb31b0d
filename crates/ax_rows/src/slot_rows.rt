//! The rows of a set of slots.
ghost use Rattle.std.specs.Prelude.{◌≡◌, ◌<◌, ◌≤◌, List, ℕ, [], false, length, IfOk, IfSome, IfNone, IsTrue};
ghost use Rattle.std.specs.List.{AllByRecursion};
ghost use Rattle.ax_rows.specs.Rows.{AreRows, AreRowsOf};

use crate::making::make_rows;
use crate::step::Step;
use std::alloc::{AllocError, Global};

/// The most slots that rows are made for: those that nine presence octets can mark.
const MOST_SLOTS: usize = 63;

/// The rows of a set of slots: for presence octet `i` and the value `v` of its seven marks, `start[128 * i + v]` is the number of
/// the row's first step, or `NO_ROW`.
pub struct SlotRows {
    /// The link of each slot; 0 of a spare one.
    pub slots: Vec<u32>,
    pub start: Vec<u32>,
    pub steps: Vec<Step>,
}

impl Drop for SlotRows {
    fn drop(self) {
        let SlotRows {
            slots: _slots,
            start: _start,
            steps: _steps,
        } = self;
    }
}

/// Rows that are lent out.
#[derive(Clone, Copy)]
pub struct Rows<'a> {
    pub start: &'a [u32],
    pub steps: &'a [Step],
}

/// Whether these are the same links. There is no return in between: so several are compared at once.
#[inline]
fn are_same(links: &[u32], others: &[u32]) -> bool
    ensures same { IsTrue result → links.now ≡ others.now }
    ensures others { links.now ≡ others.now → IsTrue result }
{
    if links.len() != others.len() {
        return false;
    }
    let mut same = true;
    for index in 0..links.len() {
        if links[index] != others[index] {
            same = false;
        }
    }
    same
}

impl SlotRows {
    /// The rows of no slot. Takes no memory.
    pub fn new(alloc: Global) -> SlotRows
        ensures rows { (octets : List ℕ) → AreRowsOf octets result }
        ensures none { result.slots.items ≡ [] }
    {
        SlotRows {
            slots: Vec::new(alloc),
            start: Vec::new(alloc),
            steps: Vec::new(alloc),
        }
    }

    /// Leaves the rows of no slot.
    pub fn clear(&mut self)
        ensures { (octets : List ℕ) → AreRowsOf octets self.new }
    {
        self.slots.clear();
        self.start.clear();
        self.steps.clear();
    }

    /// The rows of these slots; of more than 63 the rows of no slot. `octets` has for each node the octets of its fixed kind, and
    /// else 0.
    pub fn of(alloc: Global, octets: &[u32], slots: &[u32]) -> Result<SlotRows, AllocError>
        requires links { AllByRecursion (λ link. link ≤ length octets.now) slots.now }
        ensures rows { IfOk result (λ made. AreRowsOf octets.now made) }
        ensures slots { IfOk result (λ made. length slots.now ≤ 63 → made.slots.items ≡ slots.now) }
        ensures some { IfOk result (λ made. 0 < length made.slots.items → made.slots.items ≡ slots.now) }
    {
        if slots.len() > MOST_SLOTS {
            return Ok(SlotRows::new(alloc));
        }
        let mut start = Vec::new(alloc);
        let mut steps = Vec::new(alloc);
        make_rows(octets, slots, &mut start, &mut steps)?;
        // They don't grow any more, so the room that is left over is given back.
        start.shrink_to_fit();
        steps.shrink_to_fit();
        Ok(SlotRows {
            slots: Vec::from_slice(alloc, slots)?,
            start,
            steps,
        })
    }

    /// Whether they are the rows of no slot.
    #[inline(always)]
    pub fn is_empty(&self) -> bool
        ensures { result ≡ false → 0 < length self.now.slots.items }
    {
        self.slots.is_empty()
    }

    /// The rows, lent.
    #[inline(always)]
    pub fn as_rows(&self) -> Rows<'_>
        ensures start { result.start.now ≡ self.now.start.items }
        ensures steps { result.steps.now ≡ self.now.steps.items }
    {
        Rows {
            start: self.start.as_slice(),
            steps: self.steps.as_slice(),
        }
    }

    /// The rows, where they are those of these slots.
    pub fn rows_for(&self, slots: &[u32]) -> Option<Rows<'_>>
        ensures some { IfSome result (λ rows. (octets : List ℕ) → AreRowsOf octets self.now → AreRows octets slots.now rows.start.now rows.steps.now) }
        ensures none { IfNone result (self.now.slots.items ≡ slots.now → ⊥) }
    {
        if are_same(self.slots.as_slice(), slots) {
            Some(self.as_rows())
        } else {
            None
        }
    }
}
