//! Whether kinds of two editions are the same, tables' entries aside. Nothing here takes memory.
ghost use Rattle.std.specs.Prelude.{◌≡◌, map};
ghost use Rattle.ax_format.specs.Plain.{fixed_tree, member_tree, members_tree, part_tree, kind_tree, slot_tree, slots_tree};
ghost use Rattle.ax_format.specs.Same.{is_same_sign, is_same_content, is_same_fixed, is_same_member, are_same_members, are_same_parts, is_same_last, is_same_counter, is_same, is_same_slot, are_same_slots, common, common_parts};
ghost use Rattle.ax_format.specs.Shared.{is_shared_kind};

use ax_format::{
    Content, Counter, Fixed, Kind, LastPart, Member, Members, Parts, Scale, Sign, Slot, Slots,
};

fn same_sign(one: &Sign, other: &Sign) -> bool
    ensures { result ≡ is_same_sign one.now other.now }
{
    match (one, other) {
        (Sign::Unsigned, Sign::Unsigned) | (Sign::Signed, Sign::Signed) => true,
        _ => false,
    }
}

/// Whether two contents are the same: of two tables neither's entries count.
pub fn same_content(one: &Content, other: &Content) -> bool
    ensures { result ≡ is_same_content one.now other.now }
{
    match (one, other) {
        (Content::Raw, Content::Raw)
        | (Content::Table(_), Content::Table(_))
        | (Content::Ascii, Content::Ascii)
        | (Content::Icao, Content::Icao)
        | (Content::Octal, Content::Octal) => true,
        (Content::Integer(sign), Content::Integer(own)) => same_sign(sign, own),
        (Content::Quantity(scale), Content::Quantity(own)) => {
            same_sign(&scale.sign, &own.sign)
                && scale.num == own.num
                && scale.den == own.den
                && scale.unit.as_slice() == own.unit.as_slice()
        }
        _ => false,
    }
}

#[cycle(same_fixed)]
fn same_fixed(one: &Fixed, other: &Fixed) -> bool
    ensures { result ≡ is_same_fixed (fixed_tree one.now) (fixed_tree other.now) }
{
    match (one, other) {
        (
            Fixed::Element { width, content },
            Fixed::Element {
                width: own_width,
                content: own_content,
            },
        ) => *width == *own_width && same_content(content, own_content),
        (Fixed::Group(members), Fixed::Group(own)) => same_members(members, own),
        _ => false,
    }
}

#[cycle(same_fixed)]
fn same_member(one: &Member, other: &Member) -> bool
    ensures { result ≡ is_same_member (member_tree one.now) (member_tree other.now) }
{
    match (one, other) {
        (
            Member::Named { name, fixed },
            Member::Named {
                name: own_name,
                fixed: own_fixed,
            },
        ) => name.octets() == own_name.octets() && same_fixed(fixed, own_fixed),
        (Member::Spare { width }, Member::Spare { width: own }) => *width == *own,
        _ => false,
    }
}

#[cycle(same_fixed)]
#[tactic(auto, using(crate::proofs::UnlikeLists::members))]
fn same_members(one: &Members, other: &Members) -> bool
    ensures { result ≡ are_same_members (members_tree one.now) (members_tree other.now) }
{
    if one.count() != other.count() {
        return false;
    }
    for (member, own) in one.as_slice().iter().zip(other.as_slice()) {
        if !same_member(member, own) {
            return false;
        }
    }
    true
}

/// Whether as many parts have the same members, each as the other.
#[tactic(auto, using(crate::proofs::UnlikeLists::parts))]
pub fn same_parts(one: &Parts, other: &Parts) -> bool
    ensures { result ≡ are_same_parts (map part_tree one.now) (map part_tree other.now) }
{
    if one.count() != other.count() {
        return false;
    }
    for (part, own) in one.as_slice().iter().zip(other.as_slice()) {
        if !same_members(&part.members, &own.members) {
            return false;
        }
    }
    true
}

/// Whether the last parts end alike.
pub fn same_last(one: LastPart, other: LastPart) -> bool
    ensures { result ≡ is_same_last one other }
{
    match (one, other) {
        (LastPart::WithFx, LastPart::WithFx) | (LastPart::WithoutFx, LastPart::WithoutFx) => true,
        _ => false,
    }
}

/// Whether the counters have as many octets.
pub fn same_counter(one: Counter, other: Counter) -> bool
    ensures { result ≡ is_same_counter one other }
{
    match (one, other) {
        (Counter::One, Counter::One) | (Counter::Two, Counter::Two) => true,
        _ => false,
    }
}

#[cycle(same_kind)]
fn same_kind(one: &Kind, other: &Kind) -> bool
    ensures { result ≡ is_same (kind_tree one.now) (kind_tree other.now) }
{
    match (one, other) {
        (Kind::Fixed(fixed), Kind::Fixed(own)) => same_fixed(fixed, own),
        (
            Kind::Extended { last, parts },
            Kind::Extended {
                last: own_last,
                parts: own,
            },
        ) => same_last(*last, *own_last) && same_parts(parts, own),
        (
            Kind::Counted { counter, inner },
            Kind::Counted {
                counter: own_counter,
                inner: own,
            },
        ) => same_counter(*counter, *own_counter) && same_kind(inner, own),
        (Kind::ByFx(fixed), Kind::ByFx(own)) => same_fixed(fixed, own),
        (Kind::Explicit, Kind::Explicit) => true,
        (Kind::Compound(slots), Kind::Compound(own)) => same_slots(slots, own),
        _ => false,
    }
}

#[cycle(same_kind)]
fn same_slot(one: &Slot, other: &Slot) -> bool
    ensures { result ≡ is_same_slot (slot_tree one.now) (slot_tree other.now) }
{
    match (one, other) {
        (Slot::Spare, Slot::Spare) => true,
        (
            Slot::Sub { name, kind },
            Slot::Sub {
                name: own_name,
                kind: own_kind,
            },
        ) => name.octets() == own_name.octets() && same_kind(kind, own_kind),
        _ => false,
    }
}

#[cycle(same_kind)]
#[tactic(auto, using(crate::proofs::UnlikeLists::slots))]
fn same_slots(one: &Slots, other: &Slots) -> bool
    ensures { result ≡ are_same_slots (slots_tree one.now) (slots_tree other.now) }
{
    if one.count() != other.count() {
        return false;
    }
    for (slot, own) in one.as_slice().iter().zip(other.as_slice()) {
        if !same_slot(slot, own) {
            return false;
        }
    }
    true
}

/// How many first parts have the same members.
#[tactic(auto, using(crate::proofs::CommonLists::commons))]
fn common_of(old: &Parts, new: &Parts) -> u32
    ensures { result ≡ common (map part_tree old.now) (map part_tree new.now) }
{
    let mut count: u32 = 0;
    let mut rest = new.as_slice();
    for part in old.as_slice() {
        let Some((own, later)) = rest.split_first() else {
            return count;
        };
        if !same_members(&part.members, &own.members) {
            return count;
        }
        count += 1;
        rest = later;
    }
    count
}

/// How many first parts two kinds have in common; none where they aren't both extended.
pub fn shared_parts(old: &Kind, new: &Kind) -> u32
    ensures { result ≡ common_parts (kind_tree old.now) (kind_tree new.now) }
{
    match (old, new) {
        (Kind::Extended { parts, .. }, Kind::Extended { parts: own, .. }) => common_of(parts, own),
        _ => 0,
    }
}

/// Whether a value of the old kind, or part of it, passes to the new one at the same path: both are compounds, or extended
/// with a part in common, or they are the same.
pub fn is_shared(old: &Kind, new: &Kind) -> bool
    ensures { result ≡ is_shared_kind (kind_tree old.now) (kind_tree new.now) }
{
    match (old, new) {
        (Kind::Compound(_), Kind::Compound(_)) => true,
        (Kind::Extended { parts, .. }, Kind::Extended { parts: own, .. }) => common_of(parts, own)
            > 0,
        _ => same_kind(old, new),
    }
}
