//! Records and data blocks drawn over a specification without flaw.
ghost use Rattle.std.specs.Prelude.{◌≡◌, ◌+◌, ◌*◌, ◌%◌, ◌<◌, ◌≤◌, ◌==◌, [], ◌∷◌, length, map, IfOk, OnOk};
ghost use Rattle.std.specs.Option.{option_copied, option_map};
ghost use Rattle.ax_bits.specs.Bits.{AreBits, AreOctets, bits};
ghost use Rattle.ax_format.specs.CanonicalOctets.{framed};
ghost use Rattle.ax_format.specs.InBounds.{SlotsInBounds};
ghost use Rattle.ax_format.specs.Lengths.{kind_of_slot};
ghost use Rattle.ax_format.specs.OfCode.{HasNoFlaw};
ghost use Rattle.ax_format.specs.Plain.{item_tree, kind_tree, spec_tree};
ghost use Rattle.ax_format.specs.Sizes.{longest_body};
ghost use Rattle.ax_format.specs.Specification.{uap_slot, record_slots};
ghost use Rattle.ax_format.specs.Tree.{slot_and, no_slots, defined_slots};
ghost use Rattle.ax_vectors.specs.Made.{item_made, marks_made, values_made, makers, record_made, records_made, block_of, block_made, IsSpelledBlock};
ghost use Rattle.ax_vectors.specs.Making.{Adds, times};

use crate::bit_string::BitString;
use crate::draws::Draws;
use crate::field::{draw_mark, make_field};
use crate::kinds::make_value;
use ax_check::Accepted;
use ax_format::{Kind, Spec, UapSlot};
use std::alloc::{AllocError, Global};

/// The kind of the item of a slot of the UAP. None comes exactly where the slot is spare.
#[tactic(auto, using(crate::proofs::RecordDraws::kinds_found))]
fn kind_of<'s>(spec: &'s Spec, slot: &UapSlot) -> Option<&'s Kind>
    ensures { option_map kind_tree (option_copied result) ≡ kind_of_slot (uap_slot (map item_tree spec.now.items) slot.now) }
{
    match spec.item_of(slot) {
        Some(item) => Some(&item.kind),
        None => None,
    }
}

/// Whether the slot of the UAP is an item's.
#[tactic(auto, using(crate::proofs::RecordDraws::kind_defines))]
fn has_item(spec: &Spec, slot: &UapSlot) -> bool
    ensures { result ∷ [] ≡ defined_slots (slot_and (uap_slot (map item_tree spec.now.items) slot.now) no_slots) }
{
    kind_of(spec, slot).is_some()
}

/// A mark for each slot of the UAP.
#[tactic(auto, using(crate::proofs::SlotDraws::slot_marks))]
fn draw_marks(alloc: Global, spec: &Spec, draws: &mut Draws) -> Result<Vec<u8>, AllocError>
    ensures made { IfOk result (λ marks. Adds (marks_made (defined_slots (record_slots (spec_tree spec.now)))) [] marks.items draws.old draws.new) }
    ensures bits { IfOk result (λ marks. AreBits marks.items) }
    ensures count { IfOk result (λ marks. length marks.items ≡ length spec.now.uap) }
{
    let mut marks = Vec::new(alloc);
    for slot in spec.uap.as_slice() {
        let mark = draw_mark(has_item(spec, slot), draws);
        marks.push(mark)?;
    }
    Ok(marks)
}

/// Puts the value of a slot of the UAP after the bits, where it is marked and an item's.
#[tactic(auto, using(crate::proofs::RecordDraws::items))]
fn make_item(
    spec: &Spec,
    slot: &UapSlot,
    is_marked: bool,
    draws: &mut Draws,
    into: &mut BitString,
) -> Result<(), AllocError>
    requires { SlotsInBounds (slot_and (uap_slot (map item_tree spec.now.items) slot.now) no_slots) }
    ensures { OnOk result (Adds (item_made is_marked spec.now slot.now) into.old into.new draws.old draws.new) }
{
    if !is_marked {
        return Ok(());
    }
    match kind_of(spec, slot) {
        Some(kind) => make_value(kind, 0, draws, into),
        None => Ok(()),
    }
}

/// Puts the values of the marked items after the bits.
#[tactic(auto, using(crate::proofs::SlotDraws::slot_values))]
fn make_items(
    spec: &Spec,
    marks: &[u8],
    draws: &mut Draws,
    into: &mut BitString,
) -> Result<(), AllocError>
    requires { SlotsInBounds (record_slots (spec_tree spec.now)) }
    ensures { OnOk result (Adds (values_made (makers 0 (record_slots (spec_tree spec.now))) marks.now) into.old into.new draws.old draws.new) }
{
    for (slot, mark) in spec.uap.as_slice().iter().zip(marks) {
        make_item(spec, slot, *mark == 1, draws, into)?;
    }
    Ok(())
}

/// Puts the drawn FSPEC of a record and its items after the bits.
#[tactic(auto, using(crate::proofs::RecordDraws::whole_records))]
fn make_record(spec: &Spec, draws: &mut Draws, into: &mut BitString) -> Result<(), AllocError>
    requires { HasNoFlaw spec.now }
    ensures { OnOk result (Adds (record_made (spec_tree spec.now)) into.old into.new draws.old draws.new) }
{
    let marks = draw_marks(into.alloc(), spec, draws)?;
    make_field(&marks, draws, into)?;
    make_items(spec, &marks, draws, into)
}

/// Puts so many records after the bits.
#[tactic(auto, using(crate::proofs::KindDraws::each))]
fn make_each_record(
    spec: &Spec,
    count: u32,
    draws: &mut Draws,
    into: &mut BitString,
) -> Result<(), AllocError>
    requires { HasNoFlaw spec.now }
    ensures { OnOk result (Adds (times count (record_made (spec_tree spec.now))) into.old into.new draws.old draws.new) }
{
    let mut left = count;
    while left > 0 {
        left -= 1;
        make_record(spec, draws, into)?;
    }
    Ok(())
}

/// The octets of one to four drawn records.
#[tactic(auto)]
fn make_body(alloc: Global, spec: &Spec, draws: &mut Draws) -> Result<Vec<u8>, AllocError>
    requires { HasNoFlaw spec.now }
    ensures body { IfOk result (λ body. bits body.items ≡ (records_made (spec_tree spec.now) draws.old).0) }
    ensures state { OnOk result (draws.new ≡ (records_made (spec_tree spec.now) draws.old).1) }
{
    let mut bits = BitString::new(alloc);
    let count = 1 + draws.draw() % 4;
    make_each_record(spec, count, draws, &mut bits)?;
    Ok(bits.into_octets())
}

/// A data block with that body: CAT, LEN and the body.
fn framed(alloc: Global, category: u8, body: &[u8]) -> Result<Vec<u8>, AllocError>
    requires { length body.now ≤ longest_body }
    ensures { IfOk result (λ block. block.items ≡ framed category body.now) }
{
    let length = body.len() as u16 + 3;
    let mut block = vec![in alloc; category, (length / 256) as u8, (length % 256) as u8]?;
    block.extend_from_slice(body)?;
    Ok(block)
}

/// The data block with that body; where it would have more than 65,535 octets, the block of one record without items.
#[tactic(auto, using(crate::proofs::RecordDraws::lengths))]
fn block_of(alloc: Global, category: u8, body: &[u8]) -> Result<Vec<u8>, AllocError>
    ensures block { IfOk result (λ block. block.items ≡ block_of category body.now) }
    ensures octets { AreOctets body.now }
{
    if body.len() > 65_532 {
        return framed(alloc, category, &[0]);
    }
    framed(alloc, category, body)
}

/// A data block of one to four drawn records over an accepted specification; where it would have more than 65,535
/// octets, the block of one record without items in its place. It spells records of the specification. After want of
/// memory the draws may have gone on.
#[tactic(auto, using(crate::proofs::RecordDraws::blocks))]
pub fn make_block(
    alloc: Global,
    accepted: &Accepted,
    draws: &mut Draws,
) -> Result<Vec<u8>, AllocError>
    ensures made { IfOk result (λ block. Adds (block_made (spec_tree accepted.now)) [] block.items draws.old draws.new) }
    ensures spelled { IfOk result (λ block. IsSpelledBlock (spec_tree accepted.now) block.items) }
{
    let spec = accepted.spec();
    let body = make_body(alloc, spec, draws)?;
    block_of(alloc, spec.category, &body)
}
