//! The kinds of items and subitems, read and printed by one function each.
ghost use Rattle.std.specs.Prelude.{◌≡◌, ◌≤◌, length, IfOk, IfErr};
ghost use Rattle.ax_bits.specs.Bits.{AreBits};
ghost use Rattle.ax_format.specs.InBounds.{InBounds, SlotsInBounds};
ghost use Rattle.ax_format.specs.Presence.{NoneUndefined};
ghost use Rattle.ax_format.specs.Sizes.{longest_body};
ghost use Rattle.ax_format.specs.Tree as Tree;
ghost use Rattle.ax_format.specs.Tree.{defined_slots};
ghost use Rattle.ax_fspec.specs.Reading.{SlotInBounds, kind_read, entries_at};
ghost use Rattle.ax_text_lines.specs.HeldText.{text_kind, text_slot, text_slots};
ghost use Rattle.ax_text_lines.specs.Prints.{IsSlotPrinted, PrintsValue, PrintsEntries};
ghost use Rattle.ax_values.specs.SlotReading.{HasFailed, HasSlotFailed};

use crate::held::{TextKind, TextSlot, TextSlots};
use crate::line::TokenLine;
use crate::named::print_item;
use crate::units::{print_parts, print_run, print_single};
use ax_format::Counter;
use ax_fspec::Presence;
use ax_held_kinds::read_field;
use ax_values::{DecodeError, counter_at, explicit_content};

/// Prints the value of a kind that begins at octet `at` of the body. Ok is the octet after it; of a fault what the line holds
/// isn't said.
#[cycle(print_kind)]
pub(crate) fn print_value(
    line: &mut TokenLine,
    kind: &TextKind<'_>,
    body: &[u8],
    at: u32,
) -> Result<u32, DecodeError>
    requires bounds { InBounds (text_kind kind.now) }
    requires body { length body.now ≤ longest_body }
    requires at { at ≤ length body.now }
    ensures ok { IfOk result (λ end. PrintsValue (text_kind kind.now) body.now at end line.old.octets line.new.octets) }
    ensures err { IfErr result (λ e. HasFailed (kind_read (text_kind kind.now) body.now at) at e) }
{
    match kind {
        TextKind::Fixed(fixed) => print_single(line, fixed, body, at),
        TextKind::Extended { last, parts } => print_parts(line, *last, parts, body, at),
        TextKind::Counted { counter, inner } => print_counted(line, *counter, inner, body, at),
        TextKind::ByFx(fixed) => print_run(line, fixed, body, at),
        TextKind::Explicit => print_explicit(line, body, at),
        TextKind::Compound(slots) => print_compound(line, slots, body, at),
    }
}

/// Prints the occurrences of a counted or wide item, in braces. Ok is the octet after them.
#[cycle(print_kind)]
#[tactic(auto, using(ax_values::proofs::Continuing::errors, crate::proofs::Counted::counts))]
fn print_counted(
    line: &mut TokenLine,
    size: Counter,
    inner: &TextKind<'_>,
    body: &[u8],
    at: u32,
) -> Result<u32, DecodeError>
    requires bounds { InBounds (text_kind inner.now) }
    requires body { length body.now ≤ longest_body }
    requires at { at ≤ length body.now }
    ensures ok { IfOk result (λ end. PrintsValue (Tree.counted size (text_kind inner.now)) body.now at end line.old.octets line.new.octets) }
    ensures err { IfErr result (λ e. HasFailed (kind_read (Tree.counted size (text_kind inner.now)) body.now at) at e) }
{
    let count = counter_at(body, at, size)?;
    line.open()?;
    let mut here = at + size.octets();
    for _ in 0..count {
        here = print_value(line, inner, body, here)?;
    }
    line.close()?;
    Ok(here)
}

/// Prints the content of an explicit item. Ok is the octet after it.
#[tactic(auto, using(ax_values::proofs::Continuing::errors))]
fn print_explicit(line: &mut TokenLine, body: &[u8], at: u32) -> Result<u32, DecodeError>
    requires body { length body.now ≤ longest_body }
    requires at { at ≤ length body.now }
    ensures ok { IfOk result (λ end. PrintsValue Tree.explicit body.now at end line.old.octets line.new.octets) }
    ensures err { IfErr result (λ e. HasFailed (kind_read Tree.explicit body.now at) at e) }
{
    let content = explicit_content(body, at)?;
    line.hex(content)?;
    Ok(at + 1 + content.len() as u32)
}

/// Prints the marked subitems of a compound, in braces. Ok is the octet after them.
#[cycle(print_kind)]
#[tactic(auto, using(ax_values::proofs::Continuing::errors, ax_values::proofs::Marking::fields))]
fn print_compound(
    line: &mut TokenLine,
    slots: &TextSlots<'_>,
    body: &[u8],
    at: u32,
) -> Result<u32, DecodeError>
    requires bounds { InBounds (Tree.compound (text_slots slots.now)) }
    requires body { length body.now ≤ longest_body }
    requires at { at ≤ length body.now }
    ensures ok { IfOk result (λ end. PrintsValue (Tree.compound (text_slots slots.now)) body.now at end line.old.octets line.new.octets) }
    ensures err { IfErr result (λ e. HasFailed (kind_read (Tree.compound (text_slots slots.now)) body.now at) at e) }
{
    let all = slots.as_slice();
    let mut marked = Presence::empty();
    let here = read_field(all, body, at, &mut marked)?;
    line.open()?;
    let end = print_marked(line, slots, &marked, body, here)?;
    line.close()?;
    Ok(end)
}

/// Prints the marked slots with their values, of which the first begins at octet `at`. Ok is the octet after them.
#[cycle(print_kind)]
pub(crate) fn print_marked(
    line: &mut TokenLine,
    slots: &TextSlots<'_>,
    marked: &Presence,
    body: &[u8],
    at: u32,
) -> Result<u32, DecodeError>
    requires bounds { SlotsInBounds (text_slots slots.now) }
    requires clear { NoneUndefined (defined_slots (text_slots slots.now)) marked.now }
    requires marks { AreBits marked.now }
    requires body { length body.now ≤ longest_body }
    requires at { at ≤ length body.now }
    ensures ok { IfOk result (λ end. PrintsEntries (text_slots slots.now) marked.now body.now at end line.old.octets line.new.octets) }
    ensures err { IfErr result (λ e. HasFailed (entries_at (text_slots slots.now) marked.now body.now at) at e) }
{
    let all = slots.as_slice();
    let mut left = *marked;
    let mut here = at;
    while let Some(number) = left.take_first() {
        here = print_slot(line, &all[number as usize - 1], body, here)?;
    }
    Ok(here)
}

/// Prints the name of a slot and its value. Ok is the octet after it.
#[cycle(print_kind)]
#[tactic(auto, using(ax_values::proofs::Continuing::errors, crate::proofs::Marked::slots))]
fn print_slot(
    line: &mut TokenLine,
    slot: &TextSlot<'_>,
    body: &[u8],
    at: u32,
) -> Result<u32, DecodeError>
    requires bounds { SlotInBounds (text_slot slot.now) }
    requires body { length body.now ≤ longest_body }
    requires at { at ≤ length body.now }
    ensures ok { IfOk result (λ end. IsSlotPrinted (text_slot slot.now) body.now at end line.old.octets line.new.octets) }
    ensures err { IfErr result (λ e. HasSlotFailed (text_slot slot.now) body.now at e) }
{
    match slot {
        TextSlot::Spare => Ok(at),
        TextSlot::Named(item) => {
            let end = print_item(line, item, body, at)?;
            Ok(end)
        }
        TextSlot::Sub { name, kind } => {
            line.name(name)?;
            let end = print_value(line, kind, body, at)?;
            Ok(end)
        }
    }
}
