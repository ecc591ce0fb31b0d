//! What is held of kinds, made of them.
ghost use Rattle.std.specs.Prelude.{◌≡◌, ◌∷◌, ◌++◌, ◌<◌, [], length, map, IfOk, OnOk, IsOkAnd};
ghost use Rattle.ax_held_kinds.specs.Held.{held_part, held_kind, held_slot};
ghost use Rattle.ax_held_kinds.specs.HeldFixed.{held_content, held_fixed, held_member};
ghost use Rattle.ax_format.specs.Plain.{fixed_tree, member_tree, part_tree, kind_tree, slot_tree};
ghost use Rattle.ax_format.specs.Tree.{named};

use crate::by_number::EntriesByNumber;
use crate::kinds::{
    HeldContent, HeldFixed, HeldKind, HeldMember, HeldMembers, HeldPart, HeldParts, HeldSlot,
    HeldSlots,
};
use crate::lines::LineMaker;
use ax_format::{Content, Fixed, Kind, Member, Members, Name, Part, Parts, Slot, Slots};
use ax_lists::Sequence;
use std::alloc::{AllocError, Global};

/// Tables of at most so many entries are searched in order: that is as fast, and takes no memory.
const FEW: u32 = 16;

/// Appends what was made, where there was memory for it.
fn push_made<T: Drop>(made: &mut Sequence<T>, one: Result<T, AllocError>) -> Result<(), AllocError>
    requires room { length made.old < 4294967295 }
    ensures { OnOk result (IsOkAnd one (λ one. made.new ≡ made.old ++ one ∷ [])) }
{
    made.push(one?)
}

fn hold_content<'s>(
    alloc: Global,
    maker: &mut LineMaker,
    content: &'s Content,
) -> Result<HeldContent<'s>, AllocError>
    ensures { IfOk result (λ made. held_content made ≡ content.now) }
{
    match content {
        Content::Table(entries) if entries.count() > FEW => {
            EntriesByNumber::of(alloc, entries).map(HeldContent::Table)
        }
        Content::Quantity(scale) => maker
            .quantity(alloc, content, scale)
            .map(HeldContent::Quantity),
        content => Ok(HeldContent::Plain(content)),
    }
}

#[cycle(hold_fixed)]
fn hold_fixed<'s>(
    alloc: Global,
    maker: &mut LineMaker,
    fixed: &'s Fixed,
) -> Result<HeldFixed<'s>, AllocError>
    ensures { IfOk result (λ made. held_fixed made ≡ fixed_tree fixed.now) }
{
    match fixed {
        Fixed::Element { width, content } => Ok(HeldFixed::Element {
            width: *width,
            content: hold_content(alloc, maker, content)?,
        }),
        Fixed::Group(members) => Ok(HeldFixed::Group(hold_members(alloc, maker, members)?)),
    }
}

#[cycle(hold_fixed)]
fn hold_member<'s>(
    alloc: Global,
    maker: &mut LineMaker,
    member: &'s Member,
) -> Result<HeldMember<'s>, AllocError>
    ensures { IfOk result (λ made. held_member made ≡ member_tree member.now) }
{
    match member {
        Member::Named { name, fixed } => hold_named(alloc, maker, name, fixed),
        Member::Spare { width } => Ok(HeldMember::Spare { width: *width }),
    }
}

/// What is held of a member of that name: of an element of few bits its lines too, where they are made.
#[cycle(hold_fixed)]
fn hold_named<'s>(
    alloc: Global,
    maker: &mut LineMaker,
    name: &Name,
    fixed: &'s Fixed,
) -> Result<HeldMember<'s>, AllocError>
    ensures { IfOk result (λ made. held_member made ≡ named name.now (fixed_tree fixed.now)) }
{
    if let Some(short) = maker.short(alloc, name, fixed)? {
        return Ok(HeldMember::Short(short));
    }
    Ok(HeldMember::Named {
        name: *name,
        fixed: hold_fixed(alloc, maker, fixed)?,
    })
}

#[cycle(hold_fixed)]
fn hold_members<'s>(
    alloc: Global,
    maker: &mut LineMaker,
    members: &'s Members,
) -> Result<HeldMembers<'s>, AllocError>
    ensures { IfOk result (λ made. map held_member made ≡ map member_tree members.now) }
{
    let mut made = HeldMembers::new(alloc);
    for member in members.as_slice() {
        push_made(&mut made, hold_member(alloc, maker, member))?;
    }
    Ok(made)
}

fn hold_part<'s>(
    alloc: Global,
    maker: &mut LineMaker,
    part: &'s Part,
) -> Result<HeldPart<'s>, AllocError>
    ensures { IfOk result (λ made. held_part made ≡ part_tree part.now) }
{
    Ok(HeldPart {
        members: hold_members(alloc, maker, &part.members)?,
        width: part.width(),
    })
}

fn hold_parts<'s>(
    alloc: Global,
    maker: &mut LineMaker,
    parts: &'s Parts,
) -> Result<HeldParts<'s>, AllocError>
    ensures { IfOk result (λ made. map held_part made ≡ map part_tree parts.now) }
{
    let mut made = HeldParts::new(alloc);
    for part in parts.as_slice() {
        push_made(&mut made, hold_part(alloc, maker, part))?;
    }
    Ok(made)
}

/// What is held of a kind. Err is want of memory.
#[cycle(hold_kind)]
pub(crate) fn hold_kind<'s>(
    alloc: Global,
    maker: &mut LineMaker,
    kind: &'s Kind,
) -> Result<HeldKind<'s>, AllocError>
    ensures { IfOk result (λ made. held_kind made ≡ kind_tree kind.now) }
{
    match kind {
        Kind::Fixed(fixed) => hold_fixed(alloc, maker, fixed).map(HeldKind::Fixed),
        Kind::Extended { last, parts } => Ok(HeldKind::Extended {
            last: *last,
            parts: hold_parts(alloc, maker, parts)?,
        }),
        Kind::Counted { counter, inner } => Ok(HeldKind::Counted {
            counter: *counter,
            inner: Box::new(alloc, hold_kind(alloc, maker, inner)?)?,
        }),
        Kind::ByFx(fixed) => hold_fixed(alloc, maker, fixed).map(HeldKind::ByFx),
        Kind::Explicit => Ok(HeldKind::Explicit),
        Kind::Compound(slots) => Ok(HeldKind::Compound(hold_slots(alloc, maker, slots)?)),
    }
}

#[cycle(hold_kind)]
fn hold_slot<'s>(
    alloc: Global,
    maker: &mut LineMaker,
    slot: &'s Slot,
) -> Result<HeldSlot<'s>, AllocError>
    ensures { IfOk result (λ made. held_slot made ≡ slot_tree slot.now) }
{
    match slot {
        Slot::Spare => Ok(HeldSlot::Spare),
        Slot::Sub { name, kind } => Ok(HeldSlot::Sub {
            name: *name,
            kind: hold_kind(alloc, maker, kind)?,
        }),
    }
}

#[cycle(hold_kind)]
fn hold_slots<'s>(
    alloc: Global,
    maker: &mut LineMaker,
    slots: &'s Slots,
) -> Result<HeldSlots<'s>, AllocError>
    ensures { IfOk result (λ made. map held_slot made ≡ map slot_tree slots.now) }
{
    let mut made = HeldSlots::new(alloc);
    for slot in slots.as_slice() {
        push_made(&mut made, hold_slot(alloc, maker, slot))?;
    }
    Ok(made)
}
