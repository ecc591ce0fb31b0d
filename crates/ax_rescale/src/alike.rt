//! Whether the values of one kind can be converted to those of another. Nothing here takes memory.
ghost use Rattle.std.specs.Prelude.{◌≡◌, ◌↔◌, true};
ghost use Rattle.ax_format.specs.Plain.{fixed_tree, member_tree, members_tree, kind_tree, slot_tree, slots_tree};
ghost use Rattle.ax_format.specs.Same.{is_same_fixed, is_same_member, are_same_members, is_same, is_same_slot, are_same_slots};
ghost use Rattle.ax_format.specs.Tree.{element, no_members, member_and, no_slots, slot_and};
ghost use Rattle.ax_rescale.specs.Alike.{Alike, is_alike, is_plain, unscaled_fixed, unscaled_member, unscaled_members, unscaled, unscaled_slot, unscaled_slots};

use ax_edition::{same_content, same_counter, same_last, same_parts};
use ax_format::{Content, Fixed, Kind, Member, Members, Slot, Slots};

/// Whether two elements are the same; of two quantities only the units count.
fn alike_elements(width: u32, content: &Content, own_width: u32, own: &Content) -> bool
    ensures { result ≡ is_same_fixed (unscaled_fixed (element width content.now)) (unscaled_fixed (element own_width own.now)) }
{
    match (content, own) {
        (Content::Quantity(scale), Content::Quantity(own)) => {
            scale.unit.as_slice() == own.unit.as_slice()
        }
        _ => width == own_width && same_content(content, own),
    }
}

#[cycle(alike_fixed)]
fn alike_fixed(old: &Fixed, new: &Fixed) -> bool
    ensures { result ≡ is_same_fixed (unscaled_fixed (fixed_tree old.now)) (unscaled_fixed (fixed_tree new.now)) }
{
    match (old, new) {
        (
            Fixed::Element { width, content },
            Fixed::Element {
                width: own_width,
                content: own,
            },
        ) => alike_elements(*width, content, *own_width, own),
        (Fixed::Group(members), Fixed::Group(own)) => alike_members(members, own),
        _ => false,
    }
}

#[cycle(alike_fixed)]
fn alike_member(old: &Member, new: &Member) -> bool
    ensures { result ≡ is_same_member (unscaled_member (member_tree old.now)) (unscaled_member (member_tree new.now)) }
{
    match (old, new) {
        (
            Member::Named { name, fixed },
            Member::Named {
                name: own_name,
                fixed: own,
            },
        ) => name.octets() == own_name.octets() && alike_fixed(fixed, own),
        (Member::Spare { width }, Member::Spare { width: own }) => *width == *own,
        _ => false,
    }
}

#[cycle(alike_fixed)]
#[tactic(auto, using(crate::proofs::AlikeLists::members))]
fn alike_members(old: &Members, new: &Members) -> bool
    ensures { result ≡ are_same_members (unscaled_members (members_tree old.now)) (unscaled_members (members_tree new.now)) }
{
    if old.count() != new.count() {
        return false;
    }
    for (member, own) in old.as_slice().iter().zip(new.as_slice()) {
        if !alike_member(member, own) {
            return false;
        }
    }
    true
}

#[cycle(alike_kind)]
fn alike_kind(old: &Kind, new: &Kind) -> bool
    ensures { result ≡ is_same (unscaled (kind_tree old.now)) (unscaled (kind_tree new.now)) }
{
    match (old, new) {
        (Kind::Fixed(fixed), Kind::Fixed(own)) => alike_fixed(fixed, own),
        (
            Kind::Extended { last, parts },
            Kind::Extended {
                last: own_last,
                parts: own,
            },
        ) => same_last(*last, *own_last) && same_parts(parts, own),
        (
            Kind::Counted { counter, inner },
            Kind::Counted {
                counter: own_counter,
                inner: own,
            },
        ) => same_counter(*counter, *own_counter) && alike_kind(inner, own),
        (Kind::ByFx(fixed), Kind::ByFx(own)) => alike_fixed(fixed, own),
        (Kind::Explicit, Kind::Explicit) => true,
        (Kind::Compound(slots), Kind::Compound(own)) => alike_slots(slots, own),
        _ => false,
    }
}

#[cycle(alike_kind)]
fn alike_slot(old: &Slot, new: &Slot) -> bool
    ensures { result ≡ is_same_slot (unscaled_slot (slot_tree old.now)) (unscaled_slot (slot_tree new.now)) }
{
    match (old, new) {
        (Slot::Spare, Slot::Spare) => true,
        (
            Slot::Sub { name, kind },
            Slot::Sub {
                name: own_name,
                kind: own,
            },
        ) => name.octets() == own_name.octets() && alike_kind(kind, own),
        _ => false,
    }
}

#[cycle(alike_kind)]
#[tactic(auto, using(crate::proofs::AlikeLists::slots))]
fn alike_slots(old: &Slots, new: &Slots) -> bool
    ensures { result ≡ are_same_slots (unscaled_slots (slots_tree old.now)) (unscaled_slots (slots_tree new.now)) }
{
    if old.count() != new.count() {
        return false;
    }
    for (slot, own) in old.as_slice().iter().zip(new.as_slice()) {
        if !alike_slot(slot, own) {
            return false;
        }
    }
    true
}

/// Whether the kind is neither a compound nor an extended one.
fn is_converted(kind: &Kind) -> bool
    ensures { result ≡ is_plain (kind_tree kind.now) }
{
    match kind {
        Kind::Extended { .. } | Kind::Compound(_) => false,
        Kind::Fixed(_) | Kind::Counted { .. } | Kind::ByFx(_) | Kind::Explicit => true,
    }
}

/// Whether the two kinds are alike: neither is a compound nor extended, and they are the same but for tables' entries and for
/// the width and the scale of each quantity that stands in no extended kind. A quantity's unit counts.
#[tactic(auto, using(crate::proofs::AlikeKinds::plain_kinds, crate::proofs::AlikeKinds::compound_kinds))]
pub fn is_alike(old: &Kind, new: &Kind) -> bool
    ensures test { result ≡ is_alike (kind_tree old.now) (kind_tree new.now) }
    ensures alike { result ≡ true ↔ Alike (kind_tree old.now) (kind_tree new.now) }
{
    is_converted(old) && is_converted(new) && alike_kind(old, new)
}
