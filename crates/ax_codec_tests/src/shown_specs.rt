//! Specifications in the form of their files, where all titles are without quotation marks and all contents are raw.

use crate::shown::{push, push_number};
use ax_model::{
    Content, Counter, Fixed, Item, Kind, LastPart, Member, Members, Name, Part, Slot, Spec, Text,
    UapSlot,
};
use std::alloc::Global;
use std::process::Abort;

fn push_characters(rt: &impl Abort, text: &mut String, octets: &[u8]) {
    for octet in octets {
        text.push(char::from(*octet)).expect(rt, "memory");
    }
}

fn push_name(rt: &impl Abort, text: &mut String, name: &Name) {
    push_characters(rt, text, name.octets());
}

fn push_quoted(rt: &impl Abort, text: &mut String, quoted: &Text) {
    push(rt, text, "\"");
    push_characters(rt, text, quoted.as_slice());
    push(rt, text, "\" ");
}

fn content_word(content: &Content) -> &'static str {
    match content {
        Content::Raw => " raw",
        _ => " not raw",
    }
}

fn push_element(rt: &impl Abort, text: &mut String, width: u32, content: &Content) {
    push(rt, text, "element ");
    push_number(rt, text, u128::from(width));
    push(rt, text, content_word(content));
}

#[cycle(push_fixed)]
fn push_member(rt: &impl Abort, text: &mut String, member: &Member) {
    match member {
        Member::Named { name, fixed } => {
            push_name(rt, text, name);
            push(rt, text, " ");
            push_fixed(rt, text, fixed);
        }
        Member::Spare { width } => {
            push(rt, text, "spare ");
            push_number(rt, text, u128::from(*width));
        }
    }
}

#[cycle(push_fixed)]
fn push_members(rt: &impl Abort, text: &mut String, open: &str, members: &Members) {
    push(rt, text, open);
    for member in members.as_slice() {
        push_member(rt, text, member);
        push(rt, text, " ");
    }
    push(rt, text, "}");
}

#[cycle(push_fixed)]
fn push_fixed(rt: &impl Abort, text: &mut String, fixed: &Fixed) {
    match fixed {
        Fixed::Element { width, content } => push_element(rt, text, *width, content),
        Fixed::Group(members) => push_members(rt, text, "group { ", members),
    }
}

fn last_word(last: LastPart) -> &'static str {
    match last {
        LastPart::WithFx => "extended { ",
        LastPart::WithoutFx => "closed { ",
    }
}

fn counter_word(counter: Counter) -> &'static str {
    match counter {
        Counter::One => "counted { ",
        Counter::Two => "wide { ",
    }
}

fn push_parts(rt: &impl Abort, text: &mut String, last: LastPart, parts: &[Part]) {
    push(rt, text, last_word(last));
    for part in parts {
        push_members(rt, text, "part { ", &part.members);
        push(rt, text, " ");
    }
    push(rt, text, "}");
}

#[cycle(push_kind)]
fn push_slots(rt: &impl Abort, text: &mut String, slots: &[Slot]) {
    push(rt, text, "compound { ");
    for slot in slots {
        push_slot(rt, text, slot);
        push(rt, text, " ");
    }
    push(rt, text, "}");
}

#[cycle(push_kind)]
fn push_slot(rt: &impl Abort, text: &mut String, slot: &Slot) {
    match slot {
        Slot::Spare => push(rt, text, "-"),
        Slot::Sub { name, kind } => {
            push_name(rt, text, name);
            push(rt, text, " ");
            push_kind(rt, text, kind);
        }
    }
}

#[cycle(push_kind)]
fn push_kind(rt: &impl Abort, text: &mut String, kind: &Kind) {
    match kind {
        Kind::Fixed(fixed) => push_fixed(rt, text, fixed),
        Kind::Extended { last, parts } => push_parts(rt, text, *last, parts.as_slice()),
        Kind::Counted { counter, inner } => {
            push(rt, text, counter_word(*counter));
            push_kind(rt, text, inner);
            push(rt, text, " }");
        }
        Kind::ByFx(fixed) => {
            push(rt, text, "byfx ");
            push_fixed(rt, text, fixed);
        }
        Kind::Explicit => push(rt, text, "explicit"),
        Kind::Compound(slots) => push_slots(rt, text, slots.as_slice()),
    }
}

fn push_items(rt: &impl Abort, text: &mut String, items: &[Item]) {
    for item in items {
        push(rt, text, "item ");
        push_name(rt, text, &item.name);
        push(rt, text, " ");
        push_quoted(rt, text, &item.title);
        push_kind(rt, text, &item.kind);
        push(rt, text, " ");
    }
}

fn push_uap(rt: &impl Abort, text: &mut String, slots: &[UapSlot]) {
    for slot in slots {
        match slot {
            UapSlot::Spare => push(rt, text, "-"),
            UapSlot::Item(name) => push_name(rt, text, name),
        }
        push(rt, text, " ");
    }
}

fn push_spec(rt: &impl Abort, text: &mut String, spec: &Spec) {
    let category = spec.category;
    write!(text, "category {category:03} edition ").expect(rt, "memory");
    push_quoted(rt, text, &spec.edition);
    push(rt, text, "items { ");
    push_items(rt, text, spec.items.as_slice());
    push(rt, text, "} uap { ");
    push_uap(rt, text, spec.uap.as_slice());
    push(rt, text, "}\n");
}

/// The specification on one line, as the one-line files of crate ax_vectors are.
pub(crate) fn shown_spec(rt: &impl Abort, alloc: Global, spec: &Spec) -> String {
    let mut text = String::new(alloc);
    push_spec(rt, &mut text, spec);
    text
}
