//! Relations of the sample and test files.

use crate::edition_texts::{are_related_as, moves_told, path_told, related, relation_of, shares};
use crate::fixtures::same;
use ax_edition::{Moves, RelateError, Relation};
use ax_vectors::{CAT034_P1, CAT048_P1, CAT048_P2, FILE_H1, FILE_H2, FILE_H3};
use std::alloc::Global;
use std::process::Abort;

static FILES: [(&str, &str, &str); 7] = [
    (CAT048_P1, CAT048_P1, "41 shared"),
    (CAT048_P1, CAT048_P2, "048/020/part1 40 shared"),
    (CAT048_P2, CAT048_P1, "048/020/part1 40 shared"),
    (FILE_H1, FILE_H2, "202/010/A 2 shared"),
    (FILE_H2, FILE_H1, "202/010/A 2 shared"),
    (FILE_H1, FILE_H3, "202/010 202/010/A 202/010/B 0 shared"),
    (FILE_H3, FILE_H1, "202/010 0 shared"),
];

#[test]
fn files_share_their_paths(rt: HostRuntime) {
    for &(old, new, wanted) in &FILES {
        are_related_as(&rt, rt.alloc(), old, new, wanted);
    }
}

static BOTH_PLACES: [(u32, &str); 3] = [
    (0, "202/010 at 1 [] to 1 []"),
    (1, "202/010/A at 1 [1] lost"),
    (2, "202/010/B at 1 [2] to 1 [1]"),
];

/// Asserts how the path at a place among those of a relation is told.
fn path_is_told_as(rt: &impl Abort, alloc: Global, relation: &Relation, index: u32, wanted: &str) {
    let path = relation.paths().get(index).expect(rt, wanted);
    let told = path_told(alloc, path).expect(rt, "memory");
    same(rt, told.as_str(), wanted, "a path");
}

// In the old edition's order, a compound before its subitems, with the places in both editions.
#[test]
fn paths_have_both_places(rt: HostRuntime) {
    let relation = related(&rt, rt.alloc(), FILE_H1, FILE_H2);
    for &(index, wanted) in &BOTH_PLACES {
        path_is_told_as(&rt, rt.alloc(), &relation, index, wanted);
    }
    assert!(rt; relation.paths().count() == 3);
}

fn are_told_as(rt: &impl Abort, alloc: Global, moves: &Moves, wanted: &str) {
    let told = moves_told(alloc, moves).expect(rt, "memory");
    same(rt, told.as_str(), wanted, "moves");
}

// One item moves, and one of its subitems does.
#[test]
fn moves_are_in_the_new_order(rt: HostRuntime) {
    let relation = related(&rt, rt.alloc(), FILE_H1, FILE_H2);
    are_told_as(
        &rt,
        rt.alloc(),
        relation.moves(),
        "1 to 1 with 0 parts, 1 below; ",
    );
    let one = relation.moves().get(0).expect(&rt, "a move");
    are_told_as(
        &rt,
        rt.alloc(),
        &one.below,
        "2 to 1 with 0 parts, 0 below; ",
    );
}

// An item that is gone, and a compound whose extended subitem has lost a part and stands in another slot.
const WITH_PARTS: &str =
    r#"category 207 edition "1" items { item 010 "" element 8 raw item 020 "" compound { S extended { part { A element 7 raw } part { B element 7 raw } } T element 8 raw } } uap { 010 020 }"#;

const WITH_A_PART: &str =
    r#"category 207 edition "2" items { item 020 "" compound { T element 8 raw - S extended { part { A element 7 raw } } } } uap { - - 020 }"#;

static PLACES_OF_PARTS: [(u32, &str); 6] = [
    (0, "207/010 at 1 [] lost"),
    (1, "207/020 at 2 [] to 3 []"),
    (2, "207/020/S at 2 [1] to 3 [3]"),
    (3, "207/020/S/part0 (part 0) at 2 [1] to 3 [3]"),
    (4, "207/020/S/part1 (part 1) at 2 [1] lost"),
    (5, "207/020/T at 2 [2] to 3 [1]"),
];

// Parts stand behind their item, and have its places.
#[test]
fn parts_have_the_places_of_their_item(rt: HostRuntime) {
    let relation = related(&rt, rt.alloc(), WITH_PARTS, WITH_A_PART);
    for &(index, wanted) in &PLACES_OF_PARTS {
        path_is_told_as(&rt, rt.alloc(), &relation, index, wanted);
    }
    assert!(rt; relation.paths().count() == 6);
}

#[test]
fn first_parts_move(rt: HostRuntime) {
    let relation = related(&rt, rt.alloc(), WITH_PARTS, WITH_A_PART);
    are_told_as(
        &rt,
        rt.alloc(),
        relation.moves(),
        "2 to 3 with 0 parts, 2 below; ",
    );
    let one = relation.moves().get(0).expect(&rt, "a move");
    are_told_as(
        &rt,
        rt.alloc(),
        &one.below,
        "2 to 1 with 0 parts, 0 below; 1 to 3 with 1 parts, 0 below; ",
    );
}

fn is_shared(rt: &impl Abort, alloc: Global, relation: &Relation, text: &str, wanted: (bool, u32)) {
    let found = shares(rt, alloc, relation, text);
    assert!(rt; found.0 == wanted.0, "of {text}");
    assert!(rt; found.1 == wanted.1, "parts of {text}");
}

// Whether each is shared, and how many first parts are. A member isn't a named path.
static NAMED_PATHS: [(&str, bool, u32); 11] = [
    ("010", true, 0),
    ("130", true, 0),
    ("130/SRL", true, 0),
    ("120/RDS", true, 0),
    ("020", true, 1),
    ("170", true, 2),
    ("020/TYP", false, 0),
    ("010/SAC", false, 0),
    ("130/XXX", false, 0),
    ("130/SRL/A", false, 0),
    ("999", false, 0),
];

#[test]
fn only_named_paths_are_shared(rt: HostRuntime) {
    let relation = related(&rt, rt.alloc(), CAT048_P1, CAT048_P2);
    for &(text, shared, parts) in &NAMED_PATHS {
        is_shared(&rt, rt.alloc(), &relation, text, (shared, parts));
    }
}

static SUBITEM_PATHS: [(&str, bool, u32); 5] = [
    ("010", false, 0),
    ("020", true, 0),
    ("020/S", true, 1),
    ("020/T", true, 0),
    ("S", false, 0),
];

#[test]
fn parts_of_subitems_are_shared(rt: HostRuntime) {
    let relation = related(&rt, rt.alloc(), WITH_PARTS, WITH_A_PART);
    for &(text, shared, parts) in &SUBITEM_PATHS {
        is_shared(&rt, rt.alloc(), &relation, text, (shared, parts));
    }
}

#[test]
fn other_categories_have_no_relation(rt: HostRuntime) {
    let found = relation_of(&rt, rt.alloc(), CAT034_P1, CAT048_P1).err();
    assert!(rt; matches!(found, Some(RelateError::OtherCategory { old: 34, new: 48 })));
}
