//! A library over a real folder.

use crate::checks::{loads, tells};
use ax_outside::{FolderLibrary, Library, LoadError};
use std::alloc::Global;
use std::fs;
use std::process::Abort;
use std::rt::Files;

// A real folder, with two files and a folder in it.
fn put_files<R: Files + Abort>(rt: &R) {
    fs::write(rt, "A", "abcde").expect(rt, "a file");
    fs::write(rt, "empty", "").expect(rt, "a file");
    fs::create_dir_all(rt, "folder").expect(rt, "a folder");
}

// A load's name and limit, its answer, and the faults counted and the octets taken after it.
type Row = (
    &'static str,
    u32,
    Result<&'static [u8], LoadError>,
    u64,
    u64,
);

const LOADS: [Row; 6] = [
    ("A", 5, Ok(b"abcde"), 0, 5),
    ("A", 4, Err(LoadError::TooLarge), 0, 10),
    ("empty", 0, Ok(b""), 0, 10),
    ("missing", 5, Err(LoadError::Failed), 1, 10),
    ("folder", 5, Err(LoadError::Failed), 2, 10),
    ("", 5, Err(LoadError::Failed), 3, 10),
];

fn answers<R: Files + Drop>(
    rt: &impl Abort,
    alloc: Global,
    library: &mut FolderLibrary<R>,
    &(name, limit, wanted, faults, taken): &Row,
) {
    loads(rt, &library.load(alloc, name, limit), wanted, name);
    tells(rt, library.faults(), faults, name);
    tells(rt, library.taken(), taken, name);
}

#[test]
fn files_are_loaded_by_name(rt: HostRuntime) {
    put_files(&rt);
    let mut library = FolderLibrary::new(&rt);
    for row in &LOADS {
        answers(&rt, rt.alloc(), &mut library, row);
    }
}

// The octets of a file that is read in several parts: each is another than the ones 4,096 before it and after it.
fn long_file(rt: &impl Abort, alloc: Global) -> Vec<u8> {
    let mut octets = Vec::new(alloc);
    for number in 0..5_000u32 {
        octets.push((number % 251) as u8).expect(rt, "memory");
    }
    octets
}

// A file that is longer than what is read at once is loaded whole.
#[test]
fn a_long_file_is_loaded_whole(rt: HostRuntime) {
    let octets = long_file(&rt, rt.alloc());
    fs::write(&rt, "long", &octets).expect(&rt, "a file");
    let mut library = FolderLibrary::new(&rt);
    loads(
        &rt,
        &library.load(rt.alloc(), "long", 5_000),
        Ok(&octets),
        "long",
    );
    tells(&rt, library.taken(), 5_000, "octets taken");
}
