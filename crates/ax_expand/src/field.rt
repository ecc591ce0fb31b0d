//! Presence fields of contents.
ghost use Rattle.std.specs.Prelude.{◌≡◌, ◌↔◌, ◌*◌, ◌<◌, ◌≤◌, IsTrue, OnOk, ◌+◌, [], ◌∷◌, length, drop, IfOk, IfErr};
ghost use Rattle.ax_bits.specs.Bits.{bits};
ghost use Rattle.ax_bits.specs.Out.{Appends, room};
ghost use Rattle.ax_format.specs.InBounds.{InBounds};
ghost use Rattle.ax_format.specs.Plain.{slot_tree, slots_tree, entries_tree};
ghost use Rattle.ax_fspec.specs.Reading.{is_subitem};
ghost use Rattle.ax_format.specs.Presence.{IsDefined, marks_upto};
ghost use Rattle.ax_format.specs.Tree.{defined_slots, compound};
ghost use Rattle.ax_format.specs.Canonical.{marks_of};
ghost use Rattle.ax_values.specs.Writing.{AreEntriesOf};
ghost use Rattle.ax_expand.specs.Fields.{HasFewOctets};
ghost use Rattle.ax_expand.specs.Marks.{mark_in, rest_in, marks_in};
ghost use Rattle.ax_expand.specs.Reading.{MarksContent, FailsToMark, FailsFrom, MarkedSoFar};
ghost use Rattle.ax_expand.specs.declared.form.Form.TheVariants.{Fx, Fixed};

use crate::form::Form;
use ax_bits::Out;
use ax_format::{BodyCause, BodyFault, Entries, Entry, Slot, Slots};
use ax_fspec::{Presence, read_presence};
use ax_values::{has_fx, slots_mask};

fn is_sub(slot: &Slot) -> bool
    ensures { result ≡ is_subitem (slot_tree slot.now) }
{
    match slot {
        Slot::Spare => false,
        Slot::Sub { .. } => true,
    }
}

/// Whether the slot after that many others is there and defined.
#[tactic(auto, using(crate::proofs::Octets::slots))]
fn is_defined(slots: &[Slot], place: u32) -> bool
    ensures { IsTrue result ↔ IsDefined (drop place (defined_slots (slots_tree slots.now))) }
{
    match slots.split_first() {
        None => false,
        Some((slot, later)) => {
            if place == 0 {
                is_sub(slot)
            } else {
                is_defined(later, place - 1)
            }
        }
    }
}

/// Reads the mark of the slot after that many others.
#[tactic(auto, using(crate::proofs::Octets::marks))]
fn read_mark(
    slots: &[Slot],
    content: &[u8],
    place: u32,
    marked: &mut Presence,
) -> Result<(), BodyFault>
    requires slots { length slots.now ≤ 126 }
    requires within { place < 8 * length content.now }
    requires content { length content.now ≤ 254 }
    requires so_far { MarkedSoFar (slots_tree slots.now) (bits content.now) place marked.old }
    ensures goes_on { OnOk result (MarkedSoFar (slots_tree slots.now) (bits content.now) (place + 1) marked.new) }
    ensures stops { IfErr result (λ fault. FailsFrom (slots_tree slots.now) content.now place fault) }
{
    if !has_fx(content, place) {
        return Ok(());
    }
    if !is_defined(slots, place) {
        return Err(BodyFault {
            cause: BodyCause::UndefinedSlot,
            bit: place,
        });
    }
    marked.mark(place + 1);
    Ok(())
}

/// Reads that many presence octets. Each mark is judged before the next octet is looked for.
#[tactic(auto, using(crate::proofs::Octets::octets))]
fn read_octets(
    count: u32,
    slots: &[Slot],
    content: &[u8],
    into: &mut Presence,
) -> Result<u32, BodyFault>
    requires slots { length slots.now ≤ 126 }
    requires content { length content.now ≤ 254 }
    ensures ok { IfOk result (λ end. MarksContent (Fixed count) (slots_tree slots.now) content.now end into.new) }
    ensures err { IfErr result (λ fault. FailsToMark (Fixed count) (slots_tree slots.now) content.now fault) }
{
    let whole = count.min(content.len() as u32);
    let mut marked = Presence::empty();
    for place in 0..8 * whole {
        read_mark(slots, content, place, &mut marked)?;
    }
    if whole < count {
        return Err(BodyFault {
            cause: BodyCause::RunsOut,
            bit: 8 * whole,
        });
    }
    *into = marked;
    Ok(count)
}

/// Reads the presence field of a content. Ok is the octet after it, and `into` is then the set of the slots that it marks.
#[tactic(auto, using(crate::proofs::Decoded::fields))]
pub(crate) fn read_field(
    form: Form,
    slots: &Slots,
    content: &[u8],
    into: &mut Presence,
) -> Result<u32, BodyFault>
    requires bounds { InBounds (compound (slots_tree slots.now)) }
    requires content { length content.now ≤ 254 }
    ensures ok { IfOk result (λ end. MarksContent form (slots_tree slots.now) content.now end into.new) }
    ensures err { IfErr result (λ fault. FailsToMark form (slots_tree slots.now) content.now fault) }
{
    match form {
        Form::Fx => read_presence(&slots_mask(slots), content, 0, into),
        Form::Fixed(count) => read_octets(count, slots.as_slice(), content, into),
    }
}

/// Appends the mark of a slot: 1 where the first of the entries is of it. Answers the entries after that one.
fn write_mark<'e>(slot: u32, entries: &'e [Entry], out: &mut Out<'_>) -> &'e [Entry]
    requires { 1 ≤ room out.old }
    ensures mark { Appends out.old out.new (mark_in slot (entries_tree entries.now) ∷ []) }
    ensures rest { entries_tree result.now ≡ rest_in slot (entries_tree entries.now) }
{
    match entries.split_first() {
        Some((entry, later)) if entry.slot == slot => {
            out.push_bits(1, 1);
            later
        }
        _ => {
            out.push_bits(0, 1);
            entries
        }
    }
}

/// Appends that many octets of marks.
#[tactic(auto, using(crate::proofs::Writing::octets))]
pub(crate) fn write_octets(count: u32, entries: &Entries, out: &mut Out<'_>)
    requires count { count ≤ 254 }
    requires room { 8 * count ≤ room out.old }
    ensures { Appends out.old out.new (marks_in (8 * count) 1 (entries_tree entries.now)) }
{
    let mut rest = entries.as_slice();
    for place in 0..8 * count {
        rest = write_mark(place + 1, rest, out);
    }
}
