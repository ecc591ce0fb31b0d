//! The lines that `trial` writes.

use crate::checks::same_octets;
use crate::specs::accepted;
use ax_trial::trial_text;
use ax_vectors::{CAT034_P1, CAT048_P1, FILE_K, FILE_N, FILE_W, FILE_Z};
use std::alloc::Global;
use std::process::Abort;

/// Three counted kinds, one within the other.
const NESTED: &str =
    r#"category 206 edition "C" items { item 010 "" counted { counted { counted { element 8 raw } } } } uap { 010 }"#;

/// A counted group of 64,000 octets: two in one block are too many.
fn wide(rt: &impl Abort, alloc: Global) -> String {
    let front = "category 207 edition \"W\" items { item 010 \"\" counted { group {";
    let mut text = String::from_str(alloc, front).expect(rt, "memory");
    for number in 0..4000 {
        write!(text, " M{number} element 128 raw").expect(rt, "memory");
    }
    text.push_str(" } } } uap { 010 }").expect(rt, "memory");
    text
}

/// Asserts the line of so many blocks of a file, made from that seed.
fn has_line(rt: &impl Abort, alloc: Global, text: &str, (seed, count): (u64, u32), line: &str) {
    assert!(rt; count <= 1_000_000);
    let accepted = accepted(rt, alloc, text);
    let found = trial_text(alloc, &accepted, seed, count).expect(rt, "memory");
    same_octets(rt, &found, line.as_bytes(), line);
}

// Of three repetitions in one another the innermost has no occurrence.
const THREE_DEEP: &str =
    r#"category 207 edition "D" items { item 010 "" wide { counted { wide { element 8 raw } } } item 020 "" wide { closed { part { A element 7 raw } part { B element 8 raw } } } item 030 "" element 8 raw } uap { 010 020 030 }"#;

// The lines here were made by a second generator, written apart from this one after the rules alone.
const LINES: [(&str, u64, u32, &str); 9] = [
    (
        FILE_W,
        3,
        20,
        "blocks 20 records 45 octets 212 canonical 212 sum 16746\n",
    ),
    (
        THREE_DEEP,
        5,
        20,
        "blocks 20 records 50 octets 355 canonical 355 sum 18023\n",
    ),
    (
        FILE_Z,
        0,
        1,
        "blocks 1 records 3 octets 6 canonical 6 sum 209\n",
    ),
    (
        FILE_Z,
        0,
        0,
        "blocks 0 records 0 octets 0 canonical 0 sum 0\n",
    ),
    (
        FILE_K,
        7,
        20,
        "blocks 20 records 43 octets 462 canonical 450 sum 48382\n",
    ),
    (
        FILE_N,
        3,
        10,
        "blocks 10 records 27 octets 172 canonical 170 sum 16079\n",
    ),
    (
        CAT048_P1,
        7,
        10,
        "blocks 10 records 29 octets 1451 canonical 1451 sum 177380\n",
    ),
    (
        CAT034_P1,
        u64::MAX,
        50,
        "blocks 50 records 127 octets 3253 canonical 3253 sum 364361\n",
    ),
    (
        NESTED,
        5,
        20,
        "blocks 20 records 45 octets 194 canonical 194 sum 7451\n",
    ),
];

#[test]
fn lines_of_generated_blocks(rt: HostRuntime) {
    for &(text, seed, count, line) in &LINES {
        has_line(&rt, rt.alloc(), text, (seed, count), line);
    }
}

#[test]
fn the_line_of_wide_records(rt: HostRuntime) {
    let text = wide(&rt, rt.alloc());
    let line = "blocks 12 records 24 octets 192067 canonical 192067 sum 24496720\n";
    has_line(&rt, rt.alloc(), text.as_str(), (2, 12), line);
}
