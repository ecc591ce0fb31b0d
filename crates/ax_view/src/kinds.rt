//! Kinds made of the nodes of a table. A table has no names, so each member and slot of these kinds has the same one.
ghost use Rattle.std.specs.Prelude.{◌≡◌, ◌<◌, ◌≤◌, length, map, IfOk};
ghost use Rattle.ax_format.specs.Plain.{fixed_tree, member_tree, part_tree, kind_tree, slot_tree};
ghost use Rattle.ax_codec.specs.Bare.{bare_fixed, bare_member, bare_members, bare_kind, bare_slot};
ghost use Rattle.ax_codec.specs.Meaning.{meanings, linked, linked_member, linked_part, linked_parts, linked_slot, linked_slots, fixed_of};
ghost use Rattle.ax_codec.specs.Table.{LinksWithin, SlotLinksWithin, kind_at, record_kind_at};

use ax_codec::{Codec, Links, Node};
use ax_format::{Content, Fixed, Kind, Member, Members, Name, Part, Parts, Slot, Slots};
use std::alloc::{AllocError, Global};

/// The kind of the codec's records. Names and contents aside it is the table's.
pub(crate) fn record_kind(alloc: Global, codec: &Codec) -> Result<Kind, AllocError>
    ensures { IfOk result (λ made. bare_kind (kind_tree made) ≡ record_kind_at codec.now.nodes codec.now.slots) }
{
    let slots = slots_of_links(alloc, codec, &codec.slots)?;
    Ok(Kind::Compound(slots))
}

/// The name of each member and slot of the kinds that are made here.
fn unnamed() -> Name {
    match Name::of(b"UNNAMED") {
        Some(name) => name,
        None => unreachable!(),
    }
}

/// The fixed kind that the link leads to.
#[cycle(fixed)]
fn fixed_of_link(alloc: Global, codec: &Codec, link: u32) -> Result<Fixed, AllocError>
    requires link { (0 < link) × (link ≤ length codec.now.nodes) }
    ensures { IfOk result (λ made. bare_fixed (fixed_tree made) ≡ fixed_of (linked (meanings codec.now.nodes) link)) }
{
    match &codec.nodes.as_slice()[link as usize - 1] {
        Node::Element { width } => Ok(Fixed::Element {
            width: *width,
            content: Content::Raw,
        }),
        Node::Group { members, .. } => {
            let members = members_of_links(alloc, codec, members)?;
            Ok(Fixed::Group(members))
        }
        _ => Ok(Fixed::Group(Members::new(alloc))),
    }
}

/// The members that the links lead to.
#[cycle(fixed)]
fn members_of_links(alloc: Global, codec: &Codec, links: &Links) -> Result<Members, AllocError>
    requires links { LinksWithin (length codec.now.nodes) links.now }
    ensures { IfOk result (λ made. map bare_member (map member_tree made) ≡ map (linked_member (meanings codec.now.nodes)) links.now) }
{
    let mut made = Members::new(alloc);
    for link in links.as_slice() {
        let fixed = fixed_of_link(alloc, codec, *link)?;
        made.push(Member::Named {
            name: unnamed(),
            fixed,
        })?;
    }
    Ok(made)
}

/// The part that the link leads to.
fn part_of_link(alloc: Global, codec: &Codec, link: u32) -> Result<Part, AllocError>
    requires link { (0 < link) × (link ≤ length codec.now.nodes) }
    ensures { IfOk result (λ made. bare_members (part_tree made) ≡ linked_part (meanings codec.now.nodes) link) }
{
    match &codec.nodes.as_slice()[link as usize - 1] {
        Node::Part { members, .. } => {
            let members = members_of_links(alloc, codec, members)?;
            Ok(Part { members })
        }
        _ => Ok(Part {
            members: Members::new(alloc),
        }),
    }
}

/// The parts that the links lead to.
fn parts_of_links(alloc: Global, codec: &Codec, links: &Links) -> Result<Parts, AllocError>
    requires links { LinksWithin (length codec.now.nodes) links.now }
    ensures { IfOk result (λ made. map bare_members (map part_tree made) ≡ linked_parts (meanings codec.now.nodes) links.now) }
{
    let mut made = Parts::new(alloc);
    for link in links.as_slice() {
        let part = part_of_link(alloc, codec, *link)?;
        made.push(part)?;
    }
    Ok(made)
}

/// The kind that the link leads to.
#[cycle(kind)]
fn kind_of_link(alloc: Global, codec: &Codec, link: u32) -> Result<Kind, AllocError>
    requires link { (0 < link) × (link ≤ length codec.now.nodes) }
    ensures { IfOk result (λ made. bare_kind (kind_tree made) ≡ kind_at codec.now.nodes link) }
{
    match &codec.nodes.as_slice()[link as usize - 1] {
        Node::Element { .. } => Ok(Kind::Fixed(fixed_of_link(alloc, codec, link)?)),
        Node::Group { .. } => Ok(Kind::Fixed(fixed_of_link(alloc, codec, link)?)),
        Node::Part { .. } => Ok(Kind::Compound(Slots::new(alloc))),
        Node::Extended { last, parts } => {
            let parts = parts_of_links(alloc, codec, parts)?;
            Ok(Kind::Extended { last: *last, parts })
        }
        Node::Counted { counter, inner } => {
            let kind = kind_of_link(alloc, codec, *inner)?;
            let inner = Box::new(alloc, kind)?;
            Ok(Kind::Counted {
                counter: *counter,
                inner,
            })
        }
        Node::ByFx { inner } => Ok(Kind::ByFx(fixed_of_link(alloc, codec, *inner)?)),
        Node::Explicit => Ok(Kind::Explicit),
        Node::Compound { slots, .. } => {
            let slots = slots_of_links(alloc, codec, slots)?;
            Ok(Kind::Compound(slots))
        }
    }
}

/// The slot that the link leads to; the link of a spare one is 0.
#[cycle(kind)]
fn slot_of_link(alloc: Global, codec: &Codec, link: u32) -> Result<Slot, AllocError>
    requires link { link ≤ length codec.now.nodes }
    ensures { IfOk result (λ made. bare_slot (slot_tree made) ≡ linked_slot (meanings codec.now.nodes) link) }
{
    if link == 0 {
        return Ok(Slot::Spare);
    }
    let kind = kind_of_link(alloc, codec, link)?;
    Ok(Slot::Sub {
        name: unnamed(),
        kind,
    })
}

/// The slots that the links lead to.
#[cycle(kind)]
fn slots_of_links(alloc: Global, codec: &Codec, links: &Links) -> Result<Slots, AllocError>
    requires links { SlotLinksWithin (length codec.now.nodes) links.now }
    ensures { IfOk result (λ made. map bare_slot (map slot_tree made) ≡ linked_slots (meanings codec.now.nodes) links.now) }
{
    let mut made = Slots::new(alloc);
    for link in links.as_slice() {
        let slot = slot_of_link(alloc, codec, *link)?;
        made.push(slot)?;
    }
    Ok(made)
}
