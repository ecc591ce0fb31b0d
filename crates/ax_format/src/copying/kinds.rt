//! A kind's copy is compared as a plain tree, since the box of a counted kind lies elsewhere.
ghost use Rattle.std.specs.Prelude.{◌≡◌, IfOk, map};
ghost use Rattle.ax_format.specs.Plain.{kind_tree, slot_tree, fixed_tree, member_tree, part_tree};

use super::push_copy;
use crate::kind::{Fixed, Kind, Member, Members, Part, Parts, Slot, Slots};
use std::alloc::{AllocError, Global};

impl Kind {
    /// A copy, which has the same tree.
    pub fn copy(&self, alloc: Global) -> Result<Kind, AllocError>
        ensures { IfOk result (λ made. kind_tree made ≡ kind_tree self.now) }
    {
        copy_kind(alloc, self)
    }
}

#[cycle(copy_fixed)]
fn copy_fixed(alloc: Global, fixed: &Fixed) -> Result<Fixed, AllocError>
    ensures { IfOk result (λ made. fixed_tree made ≡ fixed_tree fixed.now) }
{
    match fixed {
        Fixed::Element { width, content } => Ok(Fixed::Element {
            width: *width,
            content: content.copy(alloc)?,
        }),
        Fixed::Group(members) => Ok(Fixed::Group(copy_members(alloc, members)?)),
    }
}

#[cycle(copy_fixed)]
fn copy_member(alloc: Global, member: &Member) -> Result<Member, AllocError>
    ensures { IfOk result (λ made. member_tree made ≡ member_tree member.now) }
{
    match member {
        Member::Named { name, fixed } => Ok(Member::Named {
            name: *name,
            fixed: copy_fixed(alloc, fixed)?,
        }),
        Member::Spare { width } => Ok(Member::Spare { width: *width }),
    }
}

#[cycle(copy_fixed)]
fn copy_members(alloc: Global, members: &Members) -> Result<Members, AllocError>
    ensures { IfOk result (λ made. map member_tree made ≡ map member_tree members.now) }
{
    let mut made = Members::new(alloc);
    for member in members.as_slice() {
        push_copy(&mut made, copy_member(alloc, member))?;
    }
    Ok(made)
}

fn copy_parts(alloc: Global, parts: &Parts) -> Result<Parts, AllocError>
    ensures { IfOk result (λ made. map part_tree made ≡ map part_tree parts.now) }
{
    let mut made = Parts::new(alloc);
    for part in parts.as_slice() {
        made.push(Part {
            members: copy_members(alloc, &part.members)?,
        })?;
    }
    Ok(made)
}

#[cycle(copy_kind)]
fn copy_kind(alloc: Global, kind: &Kind) -> Result<Kind, AllocError>
    ensures { IfOk result (λ made. kind_tree made ≡ kind_tree kind.now) }
{
    match kind {
        Kind::Fixed(fixed) => copy_fixed(alloc, fixed).map(Kind::Fixed),
        Kind::Extended { last, parts } => Ok(Kind::Extended {
            last: *last,
            parts: copy_parts(alloc, parts)?,
        }),
        Kind::Counted { counter, inner } => Ok(Kind::Counted {
            counter: *counter,
            inner: Box::new(alloc, copy_kind(alloc, inner)?)?,
        }),
        Kind::ByFx(fixed) => copy_fixed(alloc, fixed).map(Kind::ByFx),
        Kind::Explicit => Ok(Kind::Explicit),
        Kind::Compound(slots) => Ok(Kind::Compound(copy_slots(alloc, slots)?)),
    }
}

#[cycle(copy_kind)]
fn copy_slot(alloc: Global, slot: &Slot) -> Result<Slot, AllocError>
    ensures { IfOk result (λ made. slot_tree made ≡ slot_tree slot.now) }
{
    match slot {
        Slot::Spare => Ok(Slot::Spare),
        Slot::Sub { name, kind } => Ok(Slot::Sub {
            name: *name,
            kind: copy_kind(alloc, kind)?,
        }),
    }
}

#[cycle(copy_kind)]
fn copy_slots(alloc: Global, slots: &Slots) -> Result<Slots, AllocError>
    ensures { IfOk result (λ made. map slot_tree made ≡ map slot_tree slots.now) }
{
    let mut made = Slots::new(alloc);
    for slot in slots.as_slice() {
        push_copy(&mut made, copy_slot(alloc, slot))?;
    }
    Ok(made)
}
