//! Values drawn under kinds, at every depth.
ghost use Rattle.std.specs.Prelude.{◌≡◌, ◌+◌, ◌^◌, ◌<◌, ◌==◌, [], ◌∷◌, ◌++◌, length, map, IfOk, OnOk};
ghost use Rattle.ax_bits.specs.Bits.{AreBits, word};
ghost use Rattle.ax_format.specs.InBounds.{InBounds, SlotsInBounds};
ghost use Rattle.ax_format.specs.Plain.{kind_tree, part_tree, fixed_tree, slot_tree, slots_tree};
ghost use Rattle.ax_format.specs.Tree.{slot_and, no_slots, defined_slots, extended, counted, by_fx, explicit, compound};
ghost use Rattle.ax_format.specs.Widths.{counter_width};
ghost use Rattle.ax_vectors.specs.Made.{subitem_made, marks_made, octet_made, values_made, kind_made, makers};
ghost use Rattle.ax_vectors.specs.Making.{Adds, times};

use crate::bit_string::BitString;
use crate::draws::Draws;
use crate::field::{draw_mark, make_field};
use crate::fixed::{make_fixed, make_parts, make_run};
use ax_format::{Counter, Fixed, Kind, LastPart, Parts, Slot, Slots};
use std::alloc::{AllocError, Global};

/// Puts what is drawn under a kind after the bits, where so many counted or wide kinds enclose it.
#[cycle(make_value)]
pub(crate) fn make_value(
    kind: &Kind,
    around: u32,
    draws: &mut Draws,
    into: &mut BitString,
) -> Result<(), AllocError>
    requires { InBounds (kind_tree kind.now) }
    ensures { OnOk result (Adds (kind_made around (kind_tree kind.now)) into.old into.new draws.old draws.new) }
{
    match kind {
        Kind::Fixed(fixed) => make_fixed(fixed, draws, into),
        Kind::Extended { last, parts } => make_extended(*last, parts, draws, into),
        Kind::Counted { counter, inner } => { make_counted(*counter, inner, around, draws, into) }
        Kind::ByFx(fixed) => make_occurrences(fixed, draws, into),
        Kind::Explicit => make_explicit(draws, into),
        Kind::Compound(slots) => make_compound(slots, around, draws, into),
    }
}

/// One part or more.
#[tactic(auto, using(crate::proofs::KindDraws::extended_adds))]
fn make_extended(
    last: LastPart,
    parts: &Parts,
    draws: &mut Draws,
    into: &mut BitString,
) -> Result<(), AllocError>
    requires { InBounds (extended last (map part_tree parts.now)) }
    ensures { OnOk result (Adds (kind_made 0 (extended last (map part_tree parts.now))) into.old into.new draws.old draws.new) }
{
    let count = 1 + draws.draw() % parts.count();
    make_parts(last, count, parts, draws, into)
}

/// One to three occurrences by FX.
#[tactic(auto, using(crate::proofs::KindDraws::by_fx_adds))]
fn make_occurrences(
    fixed: &Fixed,
    draws: &mut Draws,
    into: &mut BitString,
) -> Result<(), AllocError>
    requires { InBounds (by_fx (fixed_tree fixed.now)) }
    ensures { OnOk result (Adds (kind_made 0 (by_fx (fixed_tree fixed.now))) into.old into.new draws.old draws.new) }
{
    let count = 1 + draws.draw() % 3;
    make_run(count, fixed, draws, into)
}

/// An explicit item of up to four octets of content.
#[tactic(auto, using(crate::proofs::KindDraws::explicit_adds))]
fn make_explicit(draws: &mut Draws, into: &mut BitString) -> Result<(), AllocError>
    ensures { OnOk result (Adds (kind_made 0 explicit) into.old into.new draws.old draws.new) }
{
    let count = draws.draw() % 5;
    into.push(1 + count as u128, 8)?;
    make_octets(count, draws, into)
}

/// So many octets.
#[tactic(auto, using(crate::proofs::KindDraws::each))]
fn make_octets(count: u32, draws: &mut Draws, into: &mut BitString) -> Result<(), AllocError>
    ensures { OnOk result (Adds (times count octet_made) into.old into.new draws.old draws.new) }
{
    let mut left = count;
    while left > 0 {
        left -= 1;
        make_octet(draws, into)?;
    }
    Ok(())
}

#[tactic(auto, using(crate::proofs::KindDraws::octet_adds))]
fn make_octet(draws: &mut Draws, into: &mut BitString) -> Result<(), AllocError>
    ensures { OnOk result (Adds octet_made into.old into.new draws.old draws.new) }
{
    let octet = draws.draw() % 256;
    into.push(octet as u128, 8)
}

/// Puts a counter REP with that count after the bits.
fn push_count(size: Counter, count: u32, into: &mut BitString) -> Result<(), AllocError>
    requires { count < 2 ^ counter_width size }
    ensures { OnOk result (into.new ≡ into.old ++ word (counter_width size) count) }
{
    into.push(count as u128, 8 * size.octets())
}

/// Up to two occurrences, with REP before them; none where two counted or wide kinds enclose this one.
#[cycle(make_value)]
#[tactic(auto, using(crate::proofs::KindDraws::counted_adds))]
fn make_counted(
    size: Counter,
    inner: &Kind,
    around: u32,
    draws: &mut Draws,
    into: &mut BitString,
) -> Result<(), AllocError>
    requires { InBounds (kind_tree inner.now) }
    ensures { OnOk result (Adds (kind_made around (counted size (kind_tree inner.now))) into.old into.new draws.old draws.new) }
{
    if around >= 2 {
        return push_count(size, 0, into);
    }
    let count = draws.draw() % 3;
    push_count(size, count, into)?;
    make_each(inner, count, around + 1, draws, into)
}

/// So many values of one kind.
#[cycle(make_value)]
#[tactic(auto, using(crate::proofs::KindDraws::each))]
fn make_each(
    kind: &Kind,
    count: u32,
    around: u32,
    draws: &mut Draws,
    into: &mut BitString,
) -> Result<(), AllocError>
    requires { InBounds (kind_tree kind.now) }
    ensures { OnOk result (Adds (times count (kind_made around (kind_tree kind.now))) into.old into.new draws.old draws.new) }
{
    let mut left = count;
    while left > 0 {
        left -= 1;
        make_value(kind, around, draws, into)?;
    }
    Ok(())
}

/// The drawn presence field of a compound, and the marked subitems.
#[cycle(make_value)]
#[tactic(auto, using(crate::proofs::SlotDraws::compounds))]
fn make_compound(
    slots: &Slots,
    around: u32,
    draws: &mut Draws,
    into: &mut BitString,
) -> Result<(), AllocError>
    requires { InBounds (compound (slots_tree slots.now)) }
    ensures { OnOk result (Adds (kind_made around (compound (slots_tree slots.now))) into.old into.new draws.old draws.new) }
{
    let marks = draw_marks(into.alloc(), slots, draws)?;
    make_field(&marks, draws, into)?;
    make_marked(slots, &marks, around, draws, into)
}

/// Whether the slot is a subitem's.
fn is_subitem(slot: &Slot) -> bool
    ensures { result ∷ [] ≡ defined_slots (slot_and (slot_tree slot.now) no_slots) }
{
    match slot {
        Slot::Spare => false,
        Slot::Sub { .. } => true,
    }
}

/// A mark for each slot.
#[tactic(auto, using(crate::proofs::SlotDraws::slot_marks))]
fn draw_marks(alloc: Global, slots: &Slots, draws: &mut Draws) -> Result<Vec<u8>, AllocError>
    ensures made { IfOk result (λ marks. Adds (marks_made (defined_slots (slots_tree slots.now))) [] marks.items draws.old draws.new) }
    ensures bits { IfOk result (λ marks. AreBits marks.items) }
    ensures count { IfOk result (λ marks. length marks.items ≡ length slots.now) }
{
    let mut marks = Vec::new(alloc);
    for slot in slots.as_slice() {
        let mark = draw_mark(is_subitem(slot), draws);
        marks.push(mark)?;
    }
    Ok(marks)
}

/// Puts the values of the marked subitems after the bits.
#[cycle(make_value)]
#[tactic(auto, using(crate::proofs::SlotDraws::slot_values))]
fn make_marked(
    slots: &Slots,
    marks: &[u8],
    around: u32,
    draws: &mut Draws,
    into: &mut BitString,
) -> Result<(), AllocError>
    requires { SlotsInBounds (slots_tree slots.now) }
    ensures { OnOk result (Adds (values_made (makers around (slots_tree slots.now)) marks.now) into.old into.new draws.old draws.new) }
{
    for (slot, mark) in slots.as_slice().iter().zip(marks) {
        make_subitem(slot, *mark == 1, around, draws, into)?;
    }
    Ok(())
}

/// Puts the value of a slot after the bits, where it is marked and not spare.
#[cycle(make_value)]
fn make_subitem(
    slot: &Slot,
    is_marked: bool,
    around: u32,
    draws: &mut Draws,
    into: &mut BitString,
) -> Result<(), AllocError>
    requires { SlotsInBounds (slot_and (slot_tree slot.now) no_slots) }
    ensures { OnOk result (Adds (subitem_made is_marked around slot.now) into.old into.new draws.old draws.new) }
{
    match slot {
        Slot::Sub { kind, .. } if is_marked => make_value(kind, around, draws, into),
        _ => Ok(()),
    }
}
