//! Each flaw at its path, and the order of flaws.

use crate::texts::{has_flaws, items_have_flaws, kind_has_flaws, kinds_have_flaws};
use ax_vectors::FILE_F;
use std::alloc::Global;
use std::process::Abort;

const ELEMENTS: [(&str, &str); 24] = [
    ("element 8 raw", ""),
    ("element 128 raw", ""),
    ("element 0 raw", "BadWidth 210/010"),
    ("element 7 raw", "NotOctets 210/010"),
    ("element 129 raw", "NotOctets 210/010, BadWidth 210/010"),
    ("element 136 raw", "BadWidth 210/010"),
    ("element 64 quantity signed 1 128 \"NM\"", ""),
    (
        "element 65 quantity unsigned 1 128 \"NM\"",
        "NotOctets 210/010, BadWidth 210/010",
    ),
    (
        "element 72 quantity signed 1 128 \"NM\"",
        "BadWidth 210/010",
    ),
    ("element 72 integer unsigned", ""),
    ("element 8 quantity unsigned 0 1 \"m\"", "BadScale 210/010"),
    ("element 8 quantity unsigned 1 0 \"m\"", "BadScale 210/010"),
    (
        "element 0 quantity unsigned 0 0 \"m\"",
        "BadWidth 210/010, BadScale 210/010",
    ),
    ("element 16 ascii", ""),
    (
        "element 12 ascii",
        "NotOctets 210/010, BadStringWidth 210/010",
    ),
    ("element 48 icao", ""),
    ("element 8 icao", "BadStringWidth 210/010"),
    ("element 24 octal", ""),
    ("element 8 octal", "BadStringWidth 210/010"),
    ("element 0 octal", "BadWidth 210/010"),
    (
        "element 136 octal",
        "BadWidth 210/010, BadStringWidth 210/010",
    ),
    ("element 524256 raw", "BadWidth 210/010"),
    ("element 524264 raw", "TooWide 210/010, BadWidth 210/010"),
    (
        "element 524257 raw",
        "NotOctets 210/010, TooWide 210/010, BadWidth 210/010",
    ),
];

#[test]
fn elements(rt: HostRuntime) {
    kinds_have_flaws(&rt, rt.alloc(), &ELEMENTS);
}

const GROUPS: [(&str, &str); 12] = [
    ("group { A element 4 raw B element 4 raw }", ""),
    ("group { spare 128 spare 128 }", ""),
    ("group { }", "Empty 210/010"),
    ("group { A group { } spare 8 }", "Empty 210/010/A"),
    (
        "group { A element 4 raw A element 4 raw }",
        "DuplicateName 210/010/A",
    ),
    (
        "group { A element 3 raw A element 2 raw A element 1 raw }",
        "NotOctets 210/010, DuplicateName 210/010/A, DuplicateName 210/010/A",
    ),
    (
        "group { A element 8 raw spare 0 }",
        "BadWidth 210/010/spare",
    ),
    ("group { spare 129 spare 7 }", "BadWidth 210/010/spare"),
    (
        "group { A element 0 raw A group { A element 8 raw } }",
        "BadWidth 210/010/A, DuplicateName 210/010/A",
    ),
    (
        "group { A group { B element 4 raw B element 4 octal } }",
        "DuplicateName 210/010/A/B, BadStringWidth 210/010/A/B",
    ),
    (
        "group { spare 524264 }",
        "TooWide 210/010, BadWidth 210/010/spare",
    ),
    (
        "group { A element 524256 raw spare 8 }",
        "TooWide 210/010, BadWidth 210/010/A",
    ),
];

#[test]
fn groups(rt: HostRuntime) {
    kinds_have_flaws(&rt, rt.alloc(), &GROUPS);
}

const WHOLE_CHARACTERS: [&str; 3] = [
    "element 8 ascii",
    "group { A element 6 icao B element 2 raw }",
    "group { A element 3 octal B element 5 raw }",
];

const PARTS_OF_CHARACTERS: [&str; 14] = [
    "group { A element 1 ascii B element 7 raw }",
    "group { A element 2 ascii B element 6 raw }",
    "group { A element 3 ascii B element 5 raw }",
    "group { A element 4 ascii B element 4 raw }",
    "group { A element 5 ascii B element 3 raw }",
    "group { A element 6 ascii B element 2 raw }",
    "group { A element 7 ascii B element 1 raw }",
    "group { A element 1 icao B element 7 raw }",
    "group { A element 2 icao B element 6 raw }",
    "group { A element 3 icao B element 5 raw }",
    "group { A element 4 icao B element 4 raw }",
    "group { A element 5 icao B element 3 raw }",
    "group { A element 1 octal B element 7 raw }",
    "group { A element 2 octal B element 6 raw }",
];

/// Asserts that each of the kinds has those flaws.
fn each_has_flaws(rt: &impl Abort, alloc: Global, kinds: &[&str], wanted: &str) {
    for &kind in kinds {
        kind_has_flaws(rt, alloc, kind, wanted);
    }
}

// A character is 8 bits of ascii, 6 of icao and 3 of octal, and no other width.
#[test]
fn widths_of_characters(rt: HostRuntime) {
    each_has_flaws(&rt, rt.alloc(), &WHOLE_CHARACTERS, "");
    each_has_flaws(
        &rt,
        rt.alloc(),
        &PARTS_OF_CHARACTERS,
        "BadStringWidth 210/010/A",
    );
}

const EXTENDED_ITEMS: [(&str, &str); 12] = [
    (
        "extended { part { A element 7 raw } part { B element 7 raw } }",
        "",
    ),
    ("extended { }", "Empty 210/010"),
    (
        "extended { part { A element 8 raw } }",
        "PartNotOctets 210/010/part0",
    ),
    (
        "extended { part { A element 7 raw } part { B element 6 raw } }",
        "PartNotOctets 210/010/part1",
    ),
    (
        "extended { part { spare 7 } part { spare 7 } part { spare 7 } part { spare 7 } part { spare 7 }
         part { spare 7 } part { spare 7 } part { spare 7 } part { spare 7 } part { spare 7 } part { } }",
        "PartNotOctets 210/010/part10",
    ),
    (
        "extended { part { A element 3 raw A element 4 raw } }",
        "DuplicateName 210/010/A",
    ),
    (
        "extended { part { A element 7 raw } part { B element 7 raw } part { A element 7 raw } }",
        "DuplicateName 210/010/A",
    ),
    (
        "extended { part { A group { B element 7 raw } } part { B element 7 raw } }",
        "",
    ),
    (
        "extended { part { spare 7 } part { spare 0 A element 7 raw } }",
        "BadWidth 210/010/spare",
    ),
    (
        "extended { part { A element 6 raw A element 0 raw } part { } }",
        "PartNotOctets 210/010/part0, DuplicateName 210/010/A, BadWidth 210/010/A, PartNotOctets 210/010/part1",
    ),
    (
        "extended { part { spare 524255 } }",
        "BadWidth 210/010/spare",
    ),
    (
        "extended { part { spare 524263 } }",
        "TooWide 210/010/part0, BadWidth 210/010/spare",
    ),
];

#[test]
fn extended_items(rt: HostRuntime) {
    kinds_have_flaws(&rt, rt.alloc(), &EXTENDED_ITEMS);
}

// The last part has no FX bit.
const CLOSED_ITEMS: [(&str, &str); 10] = [
    (
        "closed { part { A element 7 raw } part { B element 8 raw } }",
        "",
    ),
    ("closed { part { A element 8 raw } }", ""),
    ("closed { }", "Empty 210/010"),
    ("closed { part { } }", "Empty 210/010/part0"),
    (
        "closed { part { A element 8 raw } part { B element 8 raw } }",
        "PartNotOctets 210/010/part0",
    ),
    (
        "closed { part { A element 7 raw } part { B element 7 raw } }",
        "PartNotOctets 210/010/part1",
    ),
    (
        "closed { part { } part { } }",
        "PartNotOctets 210/010/part0, Empty 210/010/part1",
    ),
    ("extended { part { } }", "PartNotOctets 210/010/part0"),
    (
        "closed { part { A element 7 raw } part { A element 8 raw } }",
        "DuplicateName 210/010/A",
    ),
    ("closed { part { spare 524256 } }", "BadWidth 210/010/spare"),
];

#[test]
fn closed_items(rt: HostRuntime) {
    kinds_have_flaws(&rt, rt.alloc(), &CLOSED_ITEMS);
}

const BODIES: [(&str, &str); 22] = [
    ("wide { element 8 raw }", ""),
    ("wide { element 7 raw }", "BodyNotOctets 210/010/body"),
    ("wide { closed { part { } } }", "Empty 210/010/body/part0"),
    (
        "counted { wide { element 7 raw } }",
        "BodyNotOctets 210/010/body/body",
    ),
    ("explicit", ""),
    ("counted { explicit }", ""),
    ("counted { element 8 raw }", ""),
    ("counted { element 7 raw }", "BodyNotOctets 210/010/body"),
    ("counted { element 136 raw }", "BadWidth 210/010/body"),
    (
        "counted { element 524264 raw }",
        "TooWide 210/010/body, BadWidth 210/010/body",
    ),
    ("counted { group { } }", "Empty 210/010/body"),
    (
        "counted { group { A element 4 raw A element 4 raw } }",
        "DuplicateName 210/010/body/A",
    ),
    ("counted { compound { } }", "Empty 210/010/body"),
    (
        "counted { compound { A element 7 raw } }",
        "NotOctets 210/010/body/A",
    ),
    (
        "counted { extended { part { A element 8 raw } } }",
        "PartNotOctets 210/010/body/part0",
    ),
    (
        "counted { counted { element 7 raw } }",
        "BodyNotOctets 210/010/body/body",
    ),
    (
        "counted { byfx element 8 raw }",
        "BodyNotOctets 210/010/body/body",
    ),
    ("byfx element 7 raw", ""),
    ("byfx element 8 raw", "BodyNotOctets 210/010/body"),
    (
        "byfx element 0 raw",
        "BodyNotOctets 210/010/body, BadWidth 210/010/body",
    ),
    (
        "byfx group { A element 3 raw A element 4 raw }",
        "DuplicateName 210/010/body/A",
    ),
    (
        "byfx group { spare 524263 }",
        "TooWide 210/010/body, BadWidth 210/010/body/spare",
    ),
];

#[test]
fn bodies(rt: HostRuntime) {
    kinds_have_flaws(&rt, rt.alloc(), &BODIES);
}

const COMPOUNDS: [(&str, &str); 8] = [
    ("compound { A element 8 raw - B element 16 raw }", ""),
    ("compound { A compound { A element 8 raw } }", ""),
    ("compound { }", "Empty 210/010"),
    ("compound { A element 7 raw }", "NotOctets 210/010/A"),
    (
        "compound { A element 524264 raw }",
        "TooWide 210/010/A, BadWidth 210/010/A",
    ),
    (
        "compound { A element 8 raw A element 8 raw }",
        "DuplicateName 210/010/A",
    ),
    (
        "compound { A element 8 raw - A element 7 raw }",
        "DuplicateName 210/010/A, NotOctets 210/010/A",
    ),
    (
        "compound { A compound { } B counted { element 7 raw } }",
        "Empty 210/010/A, BodyNotOctets 210/010/B/body",
    ),
];

#[test]
fn compounds(rt: HostRuntime) {
    kinds_have_flaws(&rt, rt.alloc(), &COMPOUNDS);
}

const ITEMS_AND_SLOTS: [(&str, &str, &str); 6] = [
    (
        "item 010 \"\" element 8 quantity unsigned 0 1 \"m\" item 010 \"\" compound { }",
        "020",
        "BadScale 210/010, DuplicateItem 210/010, Empty 210/010, UnknownInUap 210/uap/020",
    ),
    (
        "item 020 \"\" element 7 raw item 010 \"\" element 0 raw item 020 \"\" explicit item 020 \"\" explicit",
        "010",
        "NotOctets 210/020, BadWidth 210/010, DuplicateItem 210/020, DuplicateItem 210/020",
    ),
    ("", "", "Empty 210/uap"),
    ("item 010 \"\" explicit", "", "Empty 210/uap"),
    (
        "item 010 \"\" explicit item 020 \"\" explicit",
        "010 - 010 020 010",
        "RepeatedInUap 210/uap/010, RepeatedInUap 210/uap/010",
    ),
    (
        "item 010 \"\" explicit",
        "020 010 020 010",
        "UnknownInUap 210/uap/020, UnknownInUap 210/uap/020, RepeatedInUap 210/uap/010",
    ),
];

#[test]
fn items_and_slots_of_the_uap(rt: HostRuntime) {
    for &(items, uap, wanted) in &ITEMS_AND_SLOTS {
        items_have_flaws(&rt, rt.alloc(), items, uap, wanted);
    }
}

const WHOLE_FILES: [(&str, &str); 2] = [
    (FILE_F, "NotOctets 034/010, RepeatedInUap 034/uap/010"),
    (
        "category 001 edition \"\" items { } uap { X }",
        "UnknownInUap 001/uap/X",
    ),
];

// A path has the category in three digits.
#[test]
fn whole_files(rt: HostRuntime) {
    for &(text, wanted) in &WHOLE_FILES {
        has_flaws(&rt, rt.alloc(), text, wanted);
    }
}

const MANY_SLOTS: [(usize, &str, &str, &str, &str); 4] = [
    (126, "", "", "", ""),
    (127, "", "", "TooManySlots 210/010", "TooManySlots 210/uap"),
    (
        125,
        "A element 7 raw",
        "A",
        "NotOctets 210/010/A",
        "UnknownInUap 210/uap/A",
    ),
    (
        126,
        "A element 7 raw",
        "A",
        "TooManySlots 210/010, NotOctets 210/010/A",
        "TooManySlots 210/uap, UnknownInUap 210/uap/A",
    ),
];

/// So many spare slots, and what stands after them.
fn after_spares(rt: &impl Abort, alloc: Global, spares: usize, end: &str) -> String {
    let mut slots = "- ".repeat(alloc, spares).expect(rt, "memory");
    slots.push_str(end).expect(rt, "memory");
    slots
}

/// Asserts that a compound with so many spare slots, and a subitem, has those flaws.
fn subitems_have_flaws(rt: &impl Abort, alloc: Global, spares: usize, subitem: &str, wanted: &str) {
    let slots = after_spares(rt, alloc, spares, subitem);
    let compound = format!(in alloc; "compound {{ {slots} }}").expect(rt, "memory");
    kind_has_flaws(rt, alloc, compound.as_str(), wanted);
}

/// Asserts that a UAP with so many spare slots, and a slot, has those flaws.
fn slots_have_flaws(rt: &impl Abort, alloc: Global, spares: usize, slot: &str, wanted: &str) {
    let uap = after_spares(rt, alloc, spares, slot);
    items_have_flaws(rt, alloc, "", uap.as_str(), wanted);
}

// 126 slots are the most, and the flaws of the slots stand after that of their number.
#[test]
fn more_than_126_slots(rt: HostRuntime) {
    for &(spares, subitem, slot, wanted, wanted_of_uap) in &MANY_SLOTS {
        subitems_have_flaws(&rt, rt.alloc(), spares, subitem, wanted);
        slots_have_flaws(&rt, rt.alloc(), spares, slot, wanted_of_uap);
    }
}
