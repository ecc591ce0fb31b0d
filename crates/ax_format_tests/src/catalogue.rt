//! A catalogue takes a category once.

use crate::texts::{accepted, same};
use ax_check::{AddError, Catalogue};
use ax_vectors::{CAT019_P1, CAT034_P1, CAT048_P1, FILE_A};
use std::alloc::Global;
use std::process::Abort;

/// The category and the edition that `get` finds of what stands at a place.
fn told_at(rt: &impl Abort, alloc: Global, catalogue: &Catalogue, index: u32) -> String {
    let one = catalogue.at(index).expect(rt, "not at its place");
    let category = one.spec().category;
    let found = catalogue.get(category).expect(rt, "not found");
    let edition = String::from_utf8_lossy(alloc, found.spec().edition.as_slice());
    let edition = edition.expect(rt, "memory");
    format!(in alloc; "{category} {edition}, ").expect(rt, "memory")
}

/// The categories in the order of the catalogue, and after each the edition that `get` finds.
fn told(rt: &impl Abort, alloc: Global, catalogue: &Catalogue) -> String {
    let mut made = String::new(alloc);
    for index in 0..catalogue.count() {
        let one = told_at(rt, alloc, catalogue, index);
        made.push_str(one.as_str()).expect(rt, "memory");
    }
    made
}

/// Asserts that the text is added, or refused for that category.
fn adds(rt: &impl Abort, alloc: Global, catalogue: &mut Catalogue, text: &str, twice: Option<u8>) {
    let refused = match catalogue.add(accepted(rt, alloc, text)) {
        Ok(()) => None,
        Err(AddError::CategoryTwice { category }) => Some(category),
        Err(AddError::OutOfMemory) => panic!(rt; "out of memory"),
    };
    assert!(rt; refused == twice, "{refused:?} for {text}");
}

/// A text that is added, the category that it is refused for, if any, and what the catalogue is told as then.
#[derive(Clone, Copy)]
struct Adding {
    text: &'static str,
    twice: Option<u8>,
    holds: &'static str,
}

/// Asserts that the text is added, or refused for that category, and that the catalogue is told so then.
fn adding_leaves(rt: &impl Abort, alloc: Global, catalogue: &mut Catalogue, one: &Adding) {
    adds(rt, alloc, catalogue, one.text, one.twice);
    let found = told(rt, alloc, catalogue);
    same(rt, found.as_str(), one.holds, one.text);
}

static ADDED: [Adding; 5] = [
    Adding {
        text: FILE_A,
        twice: None,
        holds: "34 034-A, ",
    },
    Adding {
        text: CAT034_P1,
        twice: Some(34),
        holds: "34 034-A, ",
    },
    Adding {
        text: CAT048_P1,
        twice: None,
        holds: "34 034-A, 48 048-P1, ",
    },
    Adding {
        text: CAT019_P1,
        twice: None,
        holds: "34 034-A, 48 048-P1, 19 019-P1, ",
    },
    Adding {
        text: CAT048_P1,
        twice: Some(48),
        holds: "34 034-A, 48 048-P1, 19 019-P1, ",
    },
];

#[test]
fn a_category_stands_once(rt: HostRuntime) {
    let mut catalogue = Catalogue::new(rt.alloc());
    for one in &ADDED {
        adding_leaves(&rt, rt.alloc(), &mut catalogue, one);
    }
    assert!(rt; catalogue.at(3).is_none());
    assert!(rt; catalogue.get(0).is_none());
}
