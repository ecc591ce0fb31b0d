//! One item of two editions, with one thing changed.

use crate::edition_texts::are_related_as;
use std::alloc::Global;
use std::process::Abort;

/// A file with one item of that kind, and an item that isn't in the UAP.
fn file_of(rt: &impl Abort, alloc: Global, title: &str, kind: &str) -> String {
    let file = format!(in alloc;
        "category 202 edition \"X\" items {{ item 020 \"\" element 8 raw item 010 \"{title}\" {kind} }} uap {{ - 010 }}"
    );
    file.expect(rt, "memory")
}

static CHANGES: [(&str, &str, &str); 43] = [
    ("element 8 raw", "element 16 raw", "202/010 0 shared"),
    ("element 8 raw", "element 8 ascii", "202/010 0 shared"),
    ("element 8 raw", "element 8 table { }", "202/010 0 shared"),
    (
        "element 8 raw",
        "group { A element 8 raw }",
        "202/010 0 shared",
    ),
    (
        "element 8 raw",
        "compound { A element 8 raw }",
        "202/010 0 shared",
    ),
    (
        "element 8 integer unsigned",
        "element 8 integer signed",
        "202/010 0 shared",
    ),
    (
        "element 8 quantity signed 1 4 \"m\"",
        "element 8 quantity signed 1 4 \"m\"",
        "1 shared",
    ),
    (
        "element 8 quantity signed 1 4 \"m\"",
        "element 8 quantity unsigned 1 4 \"m\"",
        "202/010 0 shared",
    ),
    (
        "element 8 quantity signed 1 4 \"m\"",
        "element 8 quantity signed 2 4 \"m\"",
        "202/010 0 shared",
    ),
    (
        "element 8 quantity signed 1 4 \"m\"",
        "element 8 quantity signed 1 8 \"m\"",
        "202/010 0 shared",
    ),
    (
        "element 8 quantity signed 1 4 \"m\"",
        "element 8 quantity signed 2 8 \"m\"",
        "202/010 0 shared",
    ),
    (
        "element 8 quantity signed 1 4 \"m\"",
        "element 8 quantity signed 1 4 \"s\"",
        "202/010 0 shared",
    ),
    (
        "element 8 table { 1 \"one\" }",
        "element 8 table { 2 \"two\" }",
        "1 shared",
    ),
    (
        "element 8 table { 1 \"one\" }",
        "element 8 table { }",
        "1 shared",
    ),
    (
        "group { A element 4 raw B element 4 raw }",
        "group { B element 4 raw A element 4 raw }",
        "202/010 0 shared",
    ),
    (
        "group { A element 4 raw B element 4 raw }",
        "group { A element 4 raw C element 4 raw }",
        "202/010 0 shared",
    ),
    (
        "group { spare 3 A element 4 raw spare 1 }",
        "group { spare 2 A element 4 raw spare 2 }",
        "202/010 0 shared",
    ),
    (
        "group { spare 4 A element 4 raw }",
        "group { B element 4 raw A element 4 raw }",
        "202/010 0 shared",
    ),
    (
        "extended { part { A element 7 raw } }",
        "extended { part { A element 7 raw } part { B element 7 raw } }",
        "2 shared",
    ),
    (
        "extended { part { A element 7 raw } part { B element 7 raw } }",
        "extended { part { A element 7 raw } }",
        "202/010/part1 2 shared",
    ),
    (
        "extended { part { A element 7 raw } part { B element 7 raw } part { C element 7 raw } }",
        "extended { part { A element 7 raw } part { D element 7 raw } part { C element 7 raw } }",
        "202/010/part1 202/010/part2 2 shared",
    ),
    (
        "extended { part { A element 7 table { 1 \"one\" } } }",
        "extended { part { A element 7 table { 2 \"two\" } } }",
        "2 shared",
    ),
    (
        "extended { part { A element 7 raw } }",
        "extended { part { B element 7 raw } }",
        "202/010 202/010/part0 0 shared",
    ),
    (
        "extended { part { A element 3 raw B element 4 raw } }",
        "extended { part { A element 4 raw B element 3 raw } }",
        "202/010 202/010/part0 0 shared",
    ),
    (
        "extended { part { A element 3 raw B element 4 raw } }",
        "extended { part { B element 4 raw A element 3 raw } }",
        "202/010 202/010/part0 0 shared",
    ),
    (
        "extended { part { A element 7 raw } }",
        "element 8 raw",
        "202/010 202/010/part0 0 shared",
    ),
    (
        "element 8 raw",
        "extended { part { A element 7 raw } }",
        "202/010 0 shared",
    ),
    (
        "extended { part { A element 7 raw } }",
        "compound { A element 8 raw }",
        "202/010 202/010/part0 0 shared",
    ),
    (
        "counted { extended { part { A element 7 raw } part { B element 7 raw } } }",
        "counted { extended { part { A element 7 raw } } }",
        "202/010 0 shared",
    ),
    (
        "byfx element 7 raw",
        "counted { element 8 raw }",
        "202/010 0 shared",
    ),
    (
        "counted { element 8 raw }",
        "counted { element 16 raw }",
        "202/010 0 shared",
    ),
    (
        "counted { compound { A element 8 raw } }",
        "counted { compound { B element 8 raw } }",
        "202/010 0 shared",
    ),
    (
        "counted { element 8 raw }",
        "wide { element 8 raw }",
        "202/010 0 shared",
    ),
    (
        "wide { element 8 raw }",
        "counted { element 8 raw }",
        "202/010 0 shared",
    ),
    (
        "wide { element 8 raw }",
        "wide { element 8 raw }",
        "1 shared",
    ),
    (
        "extended { part { A element 7 raw } part { B element 7 raw } }",
        "closed { part { A element 7 raw } part { B element 8 raw } }",
        "202/010/part1 2 shared",
    ),
    (
        "closed { part { A element 7 raw } part { B element 8 raw } }",
        "closed { part { A element 7 raw } part { B element 8 raw } }",
        "3 shared",
    ),
    (
        "closed { part { A element 7 raw } part { B element 8 raw } }",
        "extended { part { A element 7 raw } part { B element 7 raw } part { C element 7 raw } }",
        "202/010/part1 2 shared",
    ),
    (
        "closed { part { A element 7 raw } part { B element 7 raw } part { C element 8 raw } }",
        "extended { part { A element 7 raw } part { B element 7 raw } }",
        "202/010/part2 3 shared",
    ),
    ("explicit", "explicit", "1 shared"),
    (
        "compound { A element 8 raw }",
        "compound { - A element 8 raw B explicit }",
        "2 shared",
    ),
    (
        "compound { A compound { B explicit } }",
        "compound { A compound { C explicit } }",
        "202/010/A/B 2 shared",
    ),
    (
        "compound { A extended { part { B element 7 raw } part { C element 7 raw } } }",
        "compound { - A extended { part { B element 7 raw } } }",
        "202/010/A/part1 3 shared",
    ),
];

/// Asserts which paths of editions with one item of these kinds aren't shared, and how many are.
fn kinds_are_related_as(rt: &impl Abort, alloc: Global, &(old, new, wanted): &(&str, &str, &str)) {
    let old = file_of(rt, alloc, "", old);
    let new = file_of(rt, alloc, "a title", new);
    are_related_as(rt, alloc, old.as_str(), new.as_str(), wanted);
}

#[test]
fn what_changes_a_kind(rt: HostRuntime) {
    for row in &CHANGES {
        kinds_are_related_as(&rt, rt.alloc(), row);
    }
}

const USED: &str =
    "category 202 edition \"X\" items { item 010 \"\" explicit item 020 \"\" explicit } uap { 010 020 }";

const UNUSED: &str =
    "category 202 edition \"Y\" items { item 010 \"\" explicit item 020 \"\" explicit } uap { 020 }";

// An item stands where the UAP has it; one that the UAP doesn't use has no path.
#[test]
fn items_outside_the_uap_have_no_path(rt: HostRuntime) {
    are_related_as(&rt, rt.alloc(), USED, UNUSED, "202/010 1 shared");
    are_related_as(&rt, rt.alloc(), UNUSED, USED, "1 shared");
}
