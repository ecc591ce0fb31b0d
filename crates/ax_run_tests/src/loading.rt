//! Category files that are loaded by name.

use ax_load::{LoadStop, SpecFault, load_catalogue};
use ax_outside::MemLibrary;
use ax_vectors::{CAT034_P1, CAT048_P1, FILE_A, FILE_E, FILE_F, NESTED_TOO_DEEP};
use ax_words::WordText;
use std::alloc::Global;
use std::process::Abort;

// The first quotation mark of a text that never ends, and a text that ends too early.
const UNENDED: &str = "category 034 edition \"X";

const CUT_SHORT: &str =
    "category 034 edition \"X\" items { item 000 \"T\" element 8 raw } uap { 000";

const FILES: [(&str, &str); 8] = [
    ("E", FILE_E),
    ("A", FILE_A),
    ("F", FILE_F),
    ("034", CAT034_P1),
    ("048", CAT048_P1),
    ("deep", NESTED_TOO_DEEP),
    ("unended", UNENDED),
    ("short", CUT_SHORT),
];

/// One octet more than a category file may have.
const TOO_LARGE: usize = 1_048_577;

fn put(
    rt: &impl Abort,
    alloc: Global,
    files: &mut Vec<(String, Vec<u8>)>,
    name: &str,
    octets: Vec<u8>,
) {
    let name = String::from_str(alloc, name).expect(rt, "memory");
    files.push((name, octets)).expect(rt, "memory");
}

fn library(rt: &impl Abort, alloc: Global) -> MemLibrary {
    let mut files = Vec::new(alloc);
    for &(name, text) in &FILES {
        let octets = text.as_bytes().to_vec(alloc).expect(rt, "memory");
        put(rt, alloc, &mut files, name, octets);
    }
    let large = vec![in alloc; b' '; TOO_LARGE].expect(rt, "memory");
    put(rt, alloc, &mut files, "large", large);
    MemLibrary::new(files, Vec::new(alloc))
}

fn names(rt: &impl Abort, alloc: Global, first: &str, second: &str) -> Vec<WordText> {
    let first = WordText::of(alloc, first).expect(rt, "memory");
    let second = WordText::of(alloc, second).expect(rt, "memory");
    let mut made = Vec::new(alloc);
    made.push(first).expect(rt, "memory");
    made.push(second).expect(rt, "memory");
    made
}

// Why a file gives no specification, in one word and a number.
fn fault_told(fault: &SpecFault) -> (&'static str, u32) {
    match fault {
        SpecFault::TooLarge => ("TooLarge", 0),
        SpecFault::BadByte { at } => ("BadByte", *at),
        SpecFault::TooDeep { token } => ("TooDeep", *token),
        SpecFault::BadToken { token } => ("BadToken", *token),
        SpecFault::Flawed { flaws } => ("Flawed", flaws.count()),
    }
}

// What became of loading, in one word and a number.
fn told(outcome: &LoadStop) -> (&'static str, u32) {
    match outcome {
        LoadStop::LoadFault { file } => ("LoadFault", *file),
        LoadStop::CategoryTwice { file, .. } => ("CategoryTwice", *file),
        LoadStop::SpecRefused { fault, .. } => fault_told(fault),
        _ => ("other", 0),
    }
}

// Two files, and what becomes of loading them.
const LOADS: [(&str, &str, &str, u32); 9] = [
    ("A", "048", "catalogue", 2),
    ("E", "048", "catalogue", 2),
    ("A", "034", "CategoryTwice", 1),
    ("A", "none", "LoadFault", 1),
    ("F", "none", "Flawed", 2),
    ("large", "A", "TooLarge", 0),
    ("A", "unended", "BadByte", 23),
    ("deep", "A", "TooDeep", 55),
    ("A", "short", "BadToken", 16),
];

/// What becomes of loading files of these names.
fn loaded(
    rt: &impl Abort,
    alloc: Global,
    library: &mut MemLibrary,
    names: &[WordText],
) -> (&'static str, u32) {
    assert!(rt; names.len() == 2);
    match load_catalogue(alloc, library, names) {
        Ok(catalogue) => ("catalogue", catalogue.count()),
        Err(stop) => told(&stop),
    }
}

/// Asserts what becomes of loading two files.
fn load_as(rt: &impl Abort, alloc: Global, (first, second): (&str, &str), want: &str, number: u32) {
    let mut library = library(rt, alloc);
    let names = names(rt, alloc, first, second);
    let got = loaded(rt, alloc, &mut library, names.as_slice());
    assert_eq!(rt; got, (want, number), "of {first} and {second}");
}

#[test]
fn the_first_file_that_gives_no_specification_is_named(rt: HostRuntime) {
    for &(first, second, want, number) in &LOADS {
        load_as(&rt, rt.alloc(), (first, second), want, number);
    }
}
