//! What is held of kinds, made of them.
ghost use Rattle.std.specs.Prelude.{◌≡◌, ◌∷◌, ◌++◌, ◌<◌, [], length, map, IfOk, OnOk, IsOkAnd};
ghost use Rattle.ax_format.specs.Plain.{part_tree, kind_tree, slot_tree};
ghost use Rattle.ax_text_lines.specs.HeldText.{text_part, text_kind, text_slot};

use crate::drafting::{StepsLeft, TextFixed, TextPart};
use crate::held::{TextKind, TextParts, TextSlot, TextSlots};
use crate::named::TextNamed;
use ax_format::{Kind, Parts, Slot, Slots};
use ax_lists::Sequence;
use std::alloc::{AllocError, Global};

/// Appends what was made, where there was memory for it.
fn push_made<T: Drop>(made: &mut Sequence<T>, one: Result<T, AllocError>) -> Result<(), AllocError>
    requires room { length made.old < 4294967295 }
    ensures { OnOk result (IsOkAnd one (λ one. made.new ≡ made.old ++ one ∷ [])) }
{
    made.push(one?)
}

fn hold_parts<'s>(
    alloc: Global,
    left: &mut StepsLeft,
    parts: &'s Parts,
) -> Result<TextParts<'s>, AllocError>
    ensures { IfOk result (λ made. map text_part made ≡ map part_tree parts.now) }
{
    let mut made = TextParts::new(alloc);
    for part in parts.as_slice() {
        made.push(TextPart::of(alloc, left, part))?;
    }
    Ok(made)
}

/// What is held of a kind. Err is want of memory.
#[cycle(hold_kind)]
pub(crate) fn hold_kind<'s>(
    alloc: Global,
    left: &mut StepsLeft,
    kind: &'s Kind,
) -> Result<TextKind<'s>, AllocError>
    ensures { IfOk result (λ made. text_kind made ≡ kind_tree kind.now) }
{
    match kind {
        Kind::Fixed(fixed) => Ok(TextKind::Fixed(TextFixed::of(alloc, left, fixed))),
        Kind::Extended { last, parts } => Ok(TextKind::Extended {
            last: *last,
            parts: hold_parts(alloc, left, parts)?,
        }),
        Kind::Counted { counter, inner } => Ok(TextKind::Counted {
            counter: *counter,
            inner: Box::new(alloc, hold_kind(alloc, left, inner)?)?,
        }),
        Kind::ByFx(fixed) => Ok(TextKind::ByFx(TextFixed::of(alloc, left, fixed))),
        Kind::Explicit => Ok(TextKind::Explicit),
        Kind::Compound(slots) => Ok(TextKind::Compound(hold_slots(alloc, left, slots)?)),
    }
}

#[cycle(hold_kind)]
fn hold_slot<'s>(
    alloc: Global,
    left: &mut StepsLeft,
    slot: &'s Slot,
) -> Result<TextSlot<'s>, AllocError>
    ensures { IfOk result (λ made. text_slot made ≡ slot_tree slot.now) }
{
    match slot {
        Slot::Spare => Ok(TextSlot::Spare),
        Slot::Sub {
            name,
            kind: Kind::Fixed(fixed),
        } => Ok(TextSlot::Named(TextNamed::of(alloc, left, name, fixed))),
        Slot::Sub { name, kind } => Ok(TextSlot::Sub {
            name: *name,
            kind: hold_kind(alloc, left, kind)?,
        }),
    }
}

#[cycle(hold_kind)]
fn hold_slots<'s>(
    alloc: Global,
    left: &mut StepsLeft,
    slots: &'s Slots,
) -> Result<TextSlots<'s>, AllocError>
    ensures { IfOk result (λ made. map text_slot made ≡ map slot_tree slots.now) }
{
    let mut made = TextSlots::new(alloc);
    for slot in slots.as_slice() {
        push_made(&mut made, hold_slot(alloc, left, slot))?;
    }
    Ok(made)
}
