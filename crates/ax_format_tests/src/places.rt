//! Where paths lead under 048-P1.

use crate::texts::{accepted, same};
use ax_check::Accepted;
use ax_model::{Path, Place};
use ax_vectors::{CAT048_P1, FILE_W};
use std::alloc::{AllocError, Global};
use std::process::Abort;

/// The path that a text is, if it is one.
fn path_of(rt: &impl Abort, alloc: Global, text: &str) -> Option<Path> {
    assert!(rt; text.len() <= 100);
    Path::of(alloc, text.as_bytes()).expect(rt, "memory")
}

/// The place of a path, if it has one.
fn place_of(rt: &impl Abort, alloc: Global, one: &Accepted, text: &str) -> Option<Place> {
    let path = path_of(rt, alloc, text).expect(rt, "a path");
    one.resolve(alloc, &path).expect(rt, "memory")
}

/// The field reference number, the steps, and the width of the element there, if it is one.
fn told(alloc: Global, one: &Accepted, place: &Place) -> Result<String, AllocError> {
    let steps = place.steps.as_slice();
    match one.element(place) {
        Some(fixed) => {
            format!(in alloc; "FRN {} steps {steps:?} width {}", place.frn, fixed.width())
        }
        None => format!(in alloc; "FRN {} steps {steps:?}", place.frn),
    }
}

/// Asserts that a path leads to a place that is told so.
fn leads_to(rt: &impl Abort, alloc: Global, one: &Accepted, text: &str, wanted: &str) {
    let place = place_of(rt, alloc, one, text).expect(rt, text);
    let found = told(alloc, one, &place).expect(rt, "memory");
    same(rt, found.as_str(), wanted, text);
}

const PLACES: [(&str, &str); 6] = [
    ("020/TST", "FRN 3 steps [1, 0] width 1"),
    ("130/SRL", "FRN 7 steps [1] width 8"),
    ("010/SIC", "FRN 1 steps [1] width 8"),
    ("140", "FRN 2 steps [] width 24"),
    ("020", "FRN 3 steps []"),
    ("010", "FRN 1 steps []"),
];

#[test]
fn paths_lead_to_places(rt: HostRuntime) {
    let one = accepted(&rt, rt.alloc(), CAT048_P1);
    for &(text, wanted) in &PLACES {
        leads_to(&rt, rt.alloc(), &one, text, wanted);
    }
}

const CLOSED_PLACES: [(&str, &str); 3] = [
    ("020/A", "FRN 2 steps [0, 0] width 7"),
    ("020/B", "FRN 2 steps [1, 0] width 8"),
    ("010", "FRN 1 steps []"),
];

#[test]
fn paths_lead_into_parts_of_a_closed_item(rt: HostRuntime) {
    let one = accepted(&rt, rt.alloc(), FILE_W);
    for &(text, wanted) in &CLOSED_PLACES {
        leads_to(&rt, rt.alloc(), &one, text, wanted);
    }
}

const NO_PLACES: [&str; 5] = ["250/MB", "140/A", "010/SIC/A", "010/TST", "999"];

/// Asserts that a path has no place.
fn leads_nowhere(rt: &impl Abort, alloc: Global, one: &Accepted, text: &str) {
    let place = place_of(rt, alloc, one, text);
    assert!(rt; place.is_none(), "{text}");
}

#[test]
fn what_is_no_place(rt: HostRuntime) {
    let one = accepted(&rt, rt.alloc(), CAT048_P1);
    for &text in &NO_PLACES {
        leads_nowhere(&rt, rt.alloc(), &one, text);
    }
}

#[test]
fn a_path_has_no_empty_name(rt: HostRuntime) {
    assert!(rt; path_of(&rt, rt.alloc(), "020/").is_none());
}

/// The names of a path, joined by `/`.
fn joined(alloc: Global, path: &Path) -> Result<String, AllocError> {
    let mut made = String::new(alloc);
    for name in path.as_slice() {
        if !made.is_empty() {
            made.push_str("/")?;
        }
        made.push_str(String::from_utf8_lossy(alloc, name.octets())?.as_str())?;
    }
    Ok(made)
}

#[test]
fn copied_paths_equal_their_originals(rt: HostRuntime) {
    let path = path_of(&rt, rt.alloc(), "020/TST").expect(&rt, "a path");
    let copy = path.copy(rt.alloc()).expect(&rt, "memory");
    let told = joined(rt.alloc(), &copy).expect(&rt, "memory");
    same(&rt, told.as_str(), "020/TST", "020/TST");
}

#[test]
fn copied_places_equal_their_originals(rt: HostRuntime) {
    let one = accepted(&rt, rt.alloc(), CAT048_P1);
    let place = place_of(&rt, rt.alloc(), &one, "020/TST").expect(&rt, "a place");
    let copy = place.copy(rt.alloc()).expect(&rt, "memory");
    let found = told(rt.alloc(), &one, &copy).expect(&rt, "memory");
    let wanted = "FRN 3 steps [1, 0] width 1";
    same(&rt, found.as_str(), wanted, "020/TST");
}
