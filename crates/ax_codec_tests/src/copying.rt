//! Specifications made of their parts, and copies of specifications and of blocks.
ghost use Rattle.ax_model.specs.OfCode.{HasNoFlaw};

use crate::fixtures::{accepted, octets_of, raw_of, same};
use crate::shown::shown_block;
use crate::shown_specs::shown_spec;
use ax_model::{
    Block, Content, Counter, Fixed, Item, Items, Kind, LastPart, Member, Members, Name, Part,
    Parts, Slot, Slots, Spec, Text, UapSlot, UapSlots,
};
use ax_values::decode_block;
use ax_vectors::{FILE_H1, FILE_K, FILE_N, FILE_W};
use std::alloc::Global;
use std::process::Abort;

static COPIES: [(&str, &str, &str); 4] = [
    (
        FILE_N,
        "C8 00 0B 80 02 81 00 11 01 80 22",
        "200 {1=[{1=17} {8=34}]}",
    ),
    (FILE_H1, "CA 00 08 80 C0 11 22 33", "202 {1={1=17 2=8755}}"),
    (FILE_H1, "CB 00 05 80 C0", "203 x80 C0"),
    (
        FILE_W,
        "CE 00 0A C0 00 02 AA BB 0B FF",
        "206 {1=[170 187] 2=<5|255>}",
    ),
];

/// Asserts that a specification is shown as that text.
fn spec_is(rt: &impl Abort, alloc: Global, spec: &Spec, want: &str) {
    let got = shown_spec(rt, alloc, spec);
    same(rt, got.as_str(), want, "a specification");
}

/// Asserts that a block is shown as that text.
fn block_is(rt: &impl Abort, alloc: Global, block: &Block, want: &str) {
    let got = shown_block(rt, alloc, block);
    same(rt, got.as_str(), want, "a block or its copy");
}

/// The block that octets in hexadecimal are read as.
fn decoded(rt: &impl Abort, alloc: Global, spec: &Spec, block: &str) -> Block
    requires { HasNoFlaw spec.now }
{
    let octets = octets_of(rt, alloc, block);
    let raw = raw_of(rt, &octets, block);
    decode_block(alloc, spec, &raw).expect(rt, "a block")
}

/// Asserts that the copy of a specification is shown as the text of its file.
fn spec_copy_is(rt: &impl Abort, alloc: Global, spec: &Spec, text: &str) {
    let copy = spec.copy(alloc).expect(rt, "memory");
    spec_is(rt, alloc, &copy, text);
}

/// Asserts that a block is shown as that text, and so is its copy.
fn block_and_copy_are(rt: &impl Abort, alloc: Global, block: &Block, want: &str) {
    block_is(rt, alloc, block, want);
    let copy = block.copy(alloc).expect(rt, "memory");
    block_is(rt, alloc, &copy, want);
}

/// Asserts that the copies of a specification without flaw and of a block under it are shown as these texts, and so is the
/// block.
fn copies_are(rt: &impl Abort, alloc: Global, text: &str, block: &str, want: &str) {
    let file = accepted(rt, alloc, text);
    spec_copy_is(rt, alloc, file.spec(), text);
    let block = decoded(rt, alloc, file.spec(), block);
    block_and_copy_are(rt, alloc, &block, want);
}

#[test]
fn copies_are_shown_as_their_originals(rt: HostRuntime) {
    for &(text, block, want) in &COPIES {
        copies_are(&rt, rt.alloc(), text, block, want);
    }
}

fn name(rt: &impl Abort, text: &str) -> Name {
    Name::of(text.as_bytes()).expect(rt, "a name")
}

fn element(width: u32) -> Fixed {
    Fixed::Element {
        width,
        content: Content::Raw,
    }
}

fn member(rt: &impl Abort, text: &str, width: u32) -> Member {
    Member::Named {
        name: name(rt, text),
        fixed: element(width),
    }
}

fn sub(rt: &impl Abort, text: &str) -> Slot {
    Slot::Sub {
        name: name(rt, text),
        kind: Kind::Fixed(element(8)),
    }
}

fn first_part(rt: &impl Abort, alloc: Global) -> Part {
    let mut members = Members::new(alloc);
    members.push(member(rt, "A", 7)).expect(rt, "memory");
    Part { members }
}

fn second_part(rt: &impl Abort, alloc: Global) -> Part {
    let mut members = Members::new(alloc);
    members.push(member(rt, "B", 4)).expect(rt, "memory");
    let spare = Member::Spare { width: 3 };
    members.push(spare).expect(rt, "memory");
    Part { members }
}

fn extended(rt: &impl Abort, alloc: Global) -> Kind {
    let mut parts = Parts::new(alloc);
    parts.push(first_part(rt, alloc)).expect(rt, "memory");
    parts.push(second_part(rt, alloc)).expect(rt, "memory");
    Kind::Extended {
        last: LastPart::WithFx,
        parts,
    }
}

fn counted(rt: &impl Abort, alloc: Global) -> Kind {
    let inner = Box::new(alloc, Kind::Fixed(element(8)));
    Kind::Counted {
        counter: Counter::One,
        inner: inner.expect(rt, "memory"),
    }
}

fn compound(rt: &impl Abort, alloc: Global) -> Kind {
    let mut slots = Slots::new(alloc);
    slots.push(sub(rt, "A")).expect(rt, "memory");
    slots.push(Slot::Spare).expect(rt, "memory");
    slots.push(sub(rt, "B")).expect(rt, "memory");
    Kind::Compound(slots)
}

// Puts an item after the others, and its slot after theirs.
fn add(rt: &impl Abort, alloc: Global, spec: &mut Spec, text: &str, kind: Kind) {
    let name = name(rt, text);
    let title = Text::new(alloc);
    assert!(rt; spec.items.count() < 1000);
    assert!(rt; spec.uap.count() < 1000);
    let item = Item { name, title, kind };
    spec.items.push(item).expect(rt, "memory");
    spec.uap.push(UapSlot::Item(name)).expect(rt, "memory");
}

fn add_each_kind(rt: &impl Abort, alloc: Global, spec: &mut Spec) {
    add(rt, alloc, spec, "010", Kind::Fixed(element(16)));
    add(rt, alloc, spec, "020", extended(rt, alloc));
    add(rt, alloc, spec, "030", Kind::ByFx(element(7)));
    add(rt, alloc, spec, "040", counted(rt, alloc));
    add(rt, alloc, spec, "050", Kind::Explicit);
    add(rt, alloc, spec, "060", compound(rt, alloc));
    add(rt, alloc, spec, "070", Kind::Fixed(element(8)));
    add(rt, alloc, spec, "080", Kind::Fixed(element(8)));
}

// The specification of FILE_K.
fn each_kind(rt: &impl Abort, alloc: Global) -> Spec {
    let mut edition = Text::new(alloc);
    edition.push(b'K').expect(rt, "memory");
    let mut spec = Spec {
        category: 205,
        edition,
        items: Items::new(alloc),
        uap: UapSlots::new(alloc),
    };
    add_each_kind(rt, alloc, &mut spec);
    spec
}

#[test]
fn a_specification_made_of_its_parts_is_that_of_its_file(rt: HostRuntime) {
    let made = each_kind(&rt, rt.alloc());
    spec_is(&rt, rt.alloc(), &made, FILE_K);
}

#[test]
fn a_specification_that_is_read_is_that_of_its_file(rt: HostRuntime) {
    let file = accepted(&rt, rt.alloc(), FILE_K);
    spec_is(&rt, rt.alloc(), file.spec(), FILE_K);
}
