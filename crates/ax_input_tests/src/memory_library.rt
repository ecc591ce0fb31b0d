//! A library in memory.

use crate::checks::{loads, tells};
use ax_outside::{Library, LoadError, MemLibrary};
use std::alloc::Global;
use std::process::Abort;

// Two files of one name and one of another.
const FILES: [(&str, &[u8]); 3] = [("A", b"abc"), ("B", b"de"), ("A", b"f")];

fn file(rt: &impl Abort, alloc: Global, name: &str, octets: &[u8]) -> (String, Vec<u8>) {
    let octets = octets.to_vec(alloc).expect(rt, "memory");
    let name = String::from_str(alloc, name).expect(rt, "memory");
    (name, octets)
}

// A library of those files, whose load 1 fails.
fn library(rt: &impl Abort, alloc: Global) -> MemLibrary {
    let mut files = Vec::new(alloc);
    for &(name, octets) in &FILES {
        let one = file(rt, alloc, name, octets);
        files.push(one).expect(rt, "memory");
    }
    let failing = vec![in alloc; 1].expect(rt, "memory");
    MemLibrary::new(files, failing)
}

// A load's name and limit, its answer, and the faults counted after it.
type Row = (&'static str, u32, Result<&'static [u8], LoadError>, u64);

const LOADS: [Row; 5] = [
    ("A", 3, Ok(b"abc"), 0),
    ("A", 3, Err(LoadError::Failed), 1),
    ("A", 2, Err(LoadError::TooLarge), 1),
    ("B", 9, Ok(b"de"), 1),
    ("C", 9, Err(LoadError::Failed), 1),
];

fn answers(
    rt: &impl Abort,
    alloc: Global,
    library: &mut MemLibrary,
    &(name, limit, wanted, faults): &Row,
) {
    loads(rt, &library.load(alloc, name, limit), wanted, name);
    tells(rt, library.faults(), faults, name);
}

#[test]
fn the_first_file_of_a_name_counts(rt: HostRuntime) {
    let mut library = library(&rt, rt.alloc());
    for row in &LOADS {
        answers(&rt, rt.alloc(), &mut library, row);
    }
}
