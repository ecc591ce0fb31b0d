//! Paths that are read from texts.

use crate::checks::same_number;
use ax_model::Path;
use std::alloc::Global;
use std::process::Abort;

// A text, and how many names the path has that it spells; none where it spells none.
const PATHS: [(&str, u32); 9] = [
    ("020/TST", 2),
    ("020", 1),
    ("020/", 0),
    ("", 0),
    ("/020", 0),
    ("020//TST", 0),
    ("020/tst", 0),
    ("A/B/ABCDEFGHIJKLMNOP", 3),
    ("ABCDEFGHIJKLMNOPQ", 0),
];

fn names_of_copy(rt: &impl Abort, alloc: Global, path: &Path) -> u32 {
    let copy = path.copy(alloc).expect(rt, "memory");
    copy.count()
}

fn names_of(rt: &impl Abort, alloc: Global, text: &str) -> u32 {
    assert!(rt; text.len() < 100);
    match Path::of(alloc, text.as_bytes()).expect(rt, "memory") {
        Some(path) => names_of_copy(rt, alloc, &path),
        None => 0,
    }
}

#[test]
fn paths_are_read_and_copied(rt: HostRuntime) {
    for &(text, count) in &PATHS {
        let found = names_of(&rt, rt.alloc(), text);
        same_number(&rt, i128::from(found), i128::from(count), text);
    }
}
