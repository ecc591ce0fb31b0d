//! How many octets of a category file what it says takes at least. Contracts don't speak of them: they bound only what is made.
ghost use Rattle.std.specs.Prelude.{◌<◌};

use ax_format::{Content, Fixed, Kind, Member, Members, Parts, Slot, Slots, Spec};

/// The octets of a short text; of a long one, some of them.
fn short_length(text: &[u8]) -> u32
    ensures { result < 1024 }
{
    (text.len() % 1024) as u32
}

/// The octets of what an element's number means: a word, and an entry of a table or a scale is longer.
fn content_octets(content: &Content) -> u32 {
    match content {
        Content::Table(entries) => entries.count().saturating_mul(6).saturating_add(9),
        Content::Quantity(scale) => { short_length(scale.unit.as_slice()) + 26 }
        _ => 4,
    }
}

#[cycle(fixed_octets)]
fn fixed_octets(fixed: &Fixed) -> u32 {
    match fixed {
        Fixed::Element { content, .. } => content_octets(content).saturating_add(10),
        Fixed::Group(members) => members_octets(members).saturating_add(10),
    }
}

#[cycle(fixed_octets)]
fn member_octets(member: &Member) -> u32 {
    match member {
        Member::Named { name, fixed } => {
            fixed_octets(fixed).saturating_add(1 + short_length(name.octets()))
        }
        Member::Spare { .. } => 8,
    }
}

#[cycle(fixed_octets)]
fn members_octets(members: &Members) -> u32 {
    let mut octets = 0u32;
    for member in members.as_slice() {
        octets = octets.saturating_add(member_octets(member));
    }
    octets
}

fn parts_octets(parts: &Parts) -> u32 {
    let mut octets = 0u32;
    for part in parts.as_slice() {
        octets = octets.saturating_add(members_octets(&part.members).saturating_add(9));
    }
    octets
}

#[cycle(kind_octets)]
fn kind_octets(kind: &Kind) -> u32 {
    match kind {
        Kind::Fixed(fixed) => fixed_octets(fixed),
        Kind::Extended { parts, .. } => parts_octets(parts),
        Kind::Counted { inner, .. } => kind_octets(inner),
        Kind::ByFx(fixed) => fixed_octets(fixed),
        Kind::Explicit => 9,
        Kind::Compound(slots) => slots_octets(slots),
    }
}

#[cycle(kind_octets)]
fn slot_octets(slot: &Slot) -> u32 {
    match slot {
        Slot::Spare => 2,
        Slot::Sub { kind, .. } => kind_octets(kind),
    }
}

#[cycle(kind_octets)]
fn slots_octets(slots: &Slots) -> u32 {
    let mut octets = 0u32;
    for slot in slots.as_slice() {
        octets = octets.saturating_add(slot_octets(slot));
    }
    octets
}

/// The octets of a specification's file, at least so many.
pub(crate) fn least_octets(spec: &Spec) -> u32 {
    let mut octets = 0u32;
    for item in spec.items.as_slice() {
        let title = short_length(item.title.as_slice());
        octets = octets.saturating_add(kind_octets(&item.kind).saturating_add(title + 12));
    }
    octets
}
