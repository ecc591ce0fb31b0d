//! Sets of the slots that plans ask.
ghost use Rattle.std.specs.Prelude.{◌≡◌, ℕ, ◌≤◌, List, length, false, IsTrue};
ghost use Rattle.ax_expressions.specs.Plans.{is_slot, meets, only_slot};

use ax_fspec::Presence;

/// Whether the set has the slot.
#[inline]
#[tactic(auto, using(crate::proofs::SlotSets::slots))]
pub fn has_slot(marks: &Presence, slot: u32) -> bool
    ensures { result ≡ is_slot marks.now slot }
{
    slot < 127 && marks.has(slot)
}

/// The set of one slot; the empty one for a number that is none from 1 to 126.
pub fn only_slot(slot: u32) -> Presence
    ensures { result ≡ only_slot slot }
{
    let mut made = Presence::empty();
    if slot > 0 && slot < 127 {
        made.mark(slot);
    }
    made
}

/// Whether some slot is in both sets.
#[inline]
#[tactic(auto, using(crate::proofs::SlotSets::meetings))]
pub fn meets(asked: &Presence, marks: &Presence) -> bool
    ensures { result ≡ meets asked.now marks.now }
{
    let mut both = asked.common(marks);
    match both.take_first() {
        Some(_) => true,
        None => false,
    }
}

/// Whether a set has no slot.
#[tactic(auto, using(crate::proofs::SlotSets::meetings))]
pub fn is_empty(asked: &Presence) -> bool
    ensures { IsTrue result → (marks : List ℕ) → meets asked.now marks ≡ false }
{
    let mut left = *asked;
    match left.take_first() {
        Some(_) => false,
        None => true,
    }
}

/// Adds the slots of another set.
pub fn add_slots(more: &Presence, asked: &mut Presence)
    requires size { length asked.old ≡ 126 }
    ensures apart { (marks : List ℕ) → meets asked.new marks ≡ false → (meets asked.old marks ≡ false) × (meets more.now marks ≡ false) }
    ensures size { length asked.new ≡ 126 }
{
    let mut left = *more;
    while let Some(slot) = left.take_first() {
        asked.mark(slot);
    }
}
