//! Tables made of specifications without flaw.
ghost use Rattle.std.specs.Prelude.{◌≡◌, ◌≤◌, ◌<◌, length, map, IfOk, OnOk, List, ℕ};
ghost use Rattle.ax_format.specs.Flaws.{NoFlaw};
ghost use Rattle.ax_format.specs.InBounds.{FixedInBounds, InBounds, SlotsInBounds, MembersInBounds};
ghost use Rattle.ax_format.specs.Plain.{fixed_tree, member_tree, members_tree, part_tree, kind_tree, slot_tree, slots_tree, spec_tree};
ghost use Rattle.ax_format.specs.Tree as Tree;
ghost use Rattle.ax_format.specs.Widths.{width, member_width, members_width};
ghost use Rattle.ax_codec.specs.Bare.{bare_fixed, bare_of_member, bare_member, bare_members, bare_kind, bare_slot};
ghost use Rattle.ax_codec.specs.Making.{IsMade, AreMade, SlotIsMade, SlotsAreMade, of_kind};
ghost use Rattle.ax_codec.specs.Meaning.{Meaning, a_fixed, a_part, a_kind, meaning, meanings, linked_member, linked_part, linked_slots};
ghost use Rattle.ax_codec.specs.Standing.{IsCompiled};
ghost use Rattle.ax_codec.specs.Table.{IsTable, IsNode};
ghost use Rattle.ax_fspec.specs.Reading.{IsMaskOf, SlotInBounds, record_slot_list, slot_of_frn};
ghost use Rattle.std.specs.List.{AllByRecursion};

use crate::codec::Codec;
use crate::node::{Links, Node, Nodes};
use ax_format::{Fixed, Kind, Member, Members, Part, Parts, Slot, Slots, Spec};
use ax_fspec::{Presence, SlotMask};
use std::alloc::{AllocError, Global};

/// The table of a specification without flaw. It stands for that specification.
pub fn compile_spec(alloc: Global, spec: &Spec) -> Result<Codec, AllocError>
    requires flawless { NoFlaw (spec_tree spec.now) }
    ensures { IfOk result (λ codec. IsCompiled codec (spec_tree spec.now)) }
{
    let mut nodes = Nodes::new(alloc);
    let slots = add_record(alloc, spec, &mut nodes)?;
    let mask = mask_of(&slots);
    Ok(Codec {
        category: spec.category,
        mask,
        slots,
        nodes,
    })
}

/// Puts a node after the others. Ok is its link.
fn add(nodes: &mut Nodes, one: Node) -> Result<u32, AllocError>
    requires table { IsTable nodes.old }
    requires node { IsNode (length nodes.old) (meanings nodes.old) one }
    ensures { IfOk result (λ link. IsMade nodes.old nodes.new link (meaning (meanings nodes.old) one)) }
{
    if nodes.count() >= u32::MAX - 1 {
        return Err(AllocError);
    }
    nodes.push(one)?;
    Ok(nodes.count())
}

/// Adds the nodes of a fixed kind.
#[cycle(add_fixed)]
#[tactic(auto, using(crate::proofs::Compiling::groups))]
fn add_fixed(alloc: Global, fixed: &Fixed, nodes: &mut Nodes) -> Result<u32, AllocError>
    requires table { IsTable nodes.old }
    requires width { width (fixed_tree fixed.now) ≤ 524256 }
    ensures { IfOk result (λ link. IsMade nodes.old nodes.new link (a_fixed (bare_fixed (fixed_tree fixed.now)))) }
{
    match fixed {
        Fixed::Element { width, .. } => add(nodes, Node::Element { width: *width }),
        Fixed::Group(members) => {
            let links = add_members(alloc, members, nodes)?;
            add(
                nodes,
                Node::Group {
                    width: fixed.width() as u32,
                    members: links,
                },
            )
        }
    }
}

/// Adds the nodes of a member.
#[cycle(add_fixed)]
fn add_member(alloc: Global, member: &Member, nodes: &mut Nodes) -> Result<u32, AllocError>
    requires table { IsTable nodes.old }
    requires width { member_width (member_tree member.now) ≤ 524256 }
    ensures { IfOk result (λ link. IsMade nodes.old nodes.new link (a_fixed (bare_of_member (member_tree member.now)))) }
{
    match member {
        Member::Named { fixed, .. } => add_fixed(alloc, fixed, nodes),
        Member::Spare { width } => add(nodes, Node::Element { width: *width }),
    }
}

/// Adds the nodes of members. Ok is a link for each.
#[cycle(add_fixed)]
fn add_members(alloc: Global, members: &Members, nodes: &mut Nodes) -> Result<Links, AllocError>
    requires table { IsTable nodes.old }
    requires width { members_width (members_tree members.now) ≤ 524256 }
    ensures { IfOk result (λ links. AreMade linked_member nodes.old nodes.new links (map bare_member (map member_tree members.now))) }
{
    let mut links = Links::new(alloc);
    for member in members.as_slice() {
        let link = add_member(alloc, member, nodes)?;
        links.push(link)?;
    }
    Ok(links)
}

/// Adds the nodes of a part.
#[tactic(auto, using(crate::proofs::Compiling::groups))]
fn add_part(alloc: Global, part: &Part, nodes: &mut Nodes) -> Result<u32, AllocError>
    requires table { IsTable nodes.old }
    requires width { members_width (part_tree part.now) ≤ 524256 }
    ensures { IfOk result (λ link. IsMade nodes.old nodes.new link (a_part (bare_members (part_tree part.now)))) }
{
    let links = add_members(alloc, &part.members, nodes)?;
    add(
        nodes,
        Node::Part {
            width: part.width() as u32,
            members: links,
        },
    )
}

/// Adds the nodes of parts. Ok is a link for each.
fn add_parts(alloc: Global, parts: &Parts, nodes: &mut Nodes) -> Result<Links, AllocError>
    requires table { IsTable nodes.old }
    requires widths { AllByRecursion (λ p. members_width p ≤ 524256) (map part_tree parts.now) }
    ensures { IfOk result (λ links. AreMade linked_part nodes.old nodes.new links (map bare_members (map part_tree parts.now))) }
{
    let mut links = Links::new(alloc);
    for part in parts.as_slice() {
        let link = add_part(alloc, part, nodes)?;
        links.push(link)?;
    }
    Ok(links)
}

/// Adds the nodes of a kind.
#[cycle(add_kind)]
fn add_kind(alloc: Global, kind: &Kind, nodes: &mut Nodes) -> Result<u32, AllocError>
    requires table { IsTable nodes.old }
    requires bounds { InBounds (kind_tree kind.now) }
    ensures { IfOk result (λ link. IsMade nodes.old nodes.new link (of_kind (bare_kind (kind_tree kind.now)))) }
{
    match kind {
        Kind::Fixed(fixed) => add_fixed(alloc, fixed, nodes),
        Kind::Extended { last, parts } => {
            let links = add_parts(alloc, parts, nodes)?;
            add(
                nodes,
                Node::Extended {
                    last: *last,
                    parts: links,
                },
            )
        }
        Kind::Counted { counter, inner } => {
            let link = add_kind(alloc, inner, nodes)?;
            add(
                nodes,
                Node::Counted {
                    counter: *counter,
                    inner: link,
                },
            )
        }
        Kind::ByFx(fixed) => {
            let link = add_fixed(alloc, fixed, nodes)?;
            add(nodes, Node::ByFx { inner: link })
        }
        Kind::Explicit => add(nodes, Node::Explicit),
        Kind::Compound(slots) => {
            let links = add_slots(alloc, slots, nodes)?;
            let mask = mask_of(&links);
            add(nodes, Node::Compound { mask, slots: links })
        }
    }
}

/// Adds the nodes of a slot. Ok is 0 where it is spare.
#[cycle(add_kind)]
fn add_slot(alloc: Global, slot: &Slot, nodes: &mut Nodes) -> Result<u32, AllocError>
    requires table { IsTable nodes.old }
    requires bounds { SlotInBounds (slot_tree slot.now) }
    ensures { IfOk result (λ link. SlotIsMade nodes.old nodes.new link (bare_slot (slot_tree slot.now))) }
{
    match slot {
        Slot::Spare => Ok(0),
        Slot::Sub { kind, .. } => add_kind(alloc, kind, nodes),
    }
}

/// Adds the nodes of slots. Ok is a link for each.
#[cycle(add_kind)]
fn add_slots(alloc: Global, slots: &Slots, nodes: &mut Nodes) -> Result<Links, AllocError>
    requires table { IsTable nodes.old }
    requires bounds { SlotsInBounds (slots_tree slots.now) }
    ensures { IfOk result (λ links. SlotsAreMade nodes.old nodes.new links (map bare_slot (map slot_tree slots.now))) }
{
    let mut links = Links::new(alloc);
    for slot in slots.as_slice() {
        let link = add_slot(alloc, slot, nodes)?;
        links.push(link)?;
    }
    Ok(links)
}

/// Adds the nodes of the item of a field reference number. Ok is 0 where there is none.
fn add_item(alloc: Global, spec: &Spec, frn: u32, nodes: &mut Nodes) -> Result<u32, AllocError>
    requires table { IsTable nodes.old }
    requires bounds { SlotInBounds (slot_of_frn frn spec.now) }
    ensures { IfOk result (λ link. SlotIsMade nodes.old nodes.new link (bare_slot (slot_of_frn frn spec.now))) }
{
    match spec.slot(frn) {
        None => Ok(0),
        Some(item) => add_kind(alloc, &item.kind, nodes),
    }
}

/// Adds the nodes of the items of the UAP, and makes the rows of its slots. Ok is a link for each of them.
fn add_record(alloc: Global, spec: &Spec, nodes: &mut Nodes) -> Result<Links, AllocError>
    requires table { IsTable nodes.old }
    requires spec { NoFlaw (spec_tree spec.now) }
    ensures { IfOk result (λ links. SlotsAreMade nodes.old nodes.new links (map bare_slot (record_slot_list (spec_tree spec.now)))) }
{
    let links = add_items(alloc, spec, nodes)?;
    nodes.make_rows(alloc, links.as_slice())?;
    Ok(links)
}

/// Adds the nodes of the items of the UAP. Ok is a link for each of its slots.
fn add_items(alloc: Global, spec: &Spec, nodes: &mut Nodes) -> Result<Links, AllocError>
    requires table { IsTable nodes.old }
    requires spec { NoFlaw (spec_tree spec.now) }
    ensures { IfOk result (λ links. SlotsAreMade nodes.old nodes.new links (map bare_slot (record_slot_list (spec_tree spec.now)))) }
{
    let mut links = Links::new(alloc);
    for index in 0..spec.uap.count() {
        let link = add_item(alloc, spec, index + 1, nodes)?;
        links.push(link)?;
    }
    Ok(links)
}

/// The mask of slots with these links, of which there are 1 to 126.
fn mask_of(links: &Links) -> SlotMask
    requires { (1 ≤ length links.now) × (length links.now ≤ 126) }
    ensures { (ms : List Meaning) → IsMaskOf (linked_slots ms links.now) result }
{
    let mut defined = Presence::empty();
    let mut number = 0;
    for link in links.as_slice() {
        number += 1;
        if *link > 0 {
            defined.mark(number);
        }
    }
    SlotMask {
        count: links.count(),
        defined,
    }
}
