//! Blocks, and what they are read as.

use crate::fixtures::{accepted, octets_of, raw, raw_of, same};
use crate::seeing::{each_is_read, each_of_file_is_read, is_read_as, read_both_ways};
use ax_check::Accepted;
use ax_vectors::{FILE_K, FILE_N, FILE_S, FILE_W};
use std::alloc::Global;
use std::process::Abort;

// A group in a group in a group, with a spare after it, and an element of the greatest width.
pub(crate) const FILE_DEEP: &str = r#"category 206 edition "D" items {
item 010 "" group { A element 4 raw B group { C element 3 raw D group { E element 1 raw F element 8 raw } } spare 8 }
item 020 "" element 128 raw
} uap { 010 020 }"#;

// A part of two octets, and one of one.
const FILE_LONG_PART: &str = r#"category 208 edition "L" items {
item 010 "" extended { part { A element 15 raw } part { B element 7 raw } }
} uap { 010 }"#;

// A compound and a UAP of 126 slots, of which the first and the last are defined.
pub(crate) const FILE_WIDE: &str =
    r#"category 207 edition "W" items { item 010 "" element 8 raw item 020 "" compound { A element 8 raw - - - - - - - - - - - - - - - - - - - - - - - - - - - - - -
- - - - - - - - - - - - - - - - - - - - - - - - - - - - - - - - - - - - - - - - - - - - - - - - - - - - - - - - - -
- - - - - - - - - - - - - - - - - - - - - - - - - - - - - - - - - - - -
B element 8 raw } } uap { 010 - - - - - - - - - - - - - - - - - - - - - - - - - - - - - - - - - - - - - - - - - - - - - - - - - -
- - - - - - - - - - - - - - - - - - - - - - - - - - - - - - - - - - - - - - - - - - - - - - - - - - - - - - - - - -
- - - - - - - - - - - - - - - -
020 }"#;

// Each octet but the last of its two presence fields has FX set.
pub(crate) const WIDE_BLOCK: &str =
    "CF 00 29 81 01 01 01 01 01 01 01 01 01 01 01 01 01 01 01 01 02 05 01 01 01 01 01 01 01 01 01 01 01 01 01 01 01 01 01 02 06";

// A record with an item of each kind, each repeated or extended where its kind can be.
pub(crate) const RICH: &str = "CD 00 16 FF 80 19 0C 03 54 0B 0C 02 AA BB 03 CC DD A0 07 08 09 0A";

static KINDS: [(&str, &str); 18] = [
    ("CD 00 07 81 00 19 0C", "205 {1=6412}"),
    ("CD 00 06 40 03 54", "205 {2=<1|5 2>}"),
    ("CD 00 06 20 0B 0C", "205 {3=[5 6]}"),
    ("CD 00 07 10 02 AA BB", "205 {4=[170 187]}"),
    ("CD 00 06 10 02 AA", "RunsOut 24"),
    ("CD 00 06 04 20 07", "205 {6={3=7}}"),
    ("CD 00 06 04 40 07", "UndefinedSlot 9"),
    ("CD 00 06 40 03 55", "ExtensionPastEnd 23"),
    ("CD 00 05 08 00", "BadExplicitLength 8"),
    ("CD 00 05 10 00", "205 {4=[]}"),
    ("CD 00 05 08 01", "205 {5=x}"),
    ("CD 00 05 01 40", "UndefinedSlot 9"),
    ("CD 00 05 01 01", "PresenceTooLong 15"),
    ("CD 00 05 04 A1", "PresenceTooLong 15"),
    ("CD 00 08 02 05 02 06 00", "205 {7=5}{7=6}{}"),
    ("CD 00 07 02 05 40 03", "RunsOut 32"),
    ("CD 00 08 02 05 00 04 40", "UndefinedSlot 33"),
    ("CC 00 05 FF FF", "204 xFF FF"),
];

#[test]
fn each_kind_is_read(rt: HostRuntime) {
    each_of_file_is_read(&rt, rt.alloc(), FILE_K, &KINDS);
}

static DEEP_AND_WIDE: [(&str, &str, &str); 12] = [
    (
        FILE_N,
        "C8 00 0B 80 02 81 00 11 01 80 22",
        "200 {1=[{1=17} {8=34}]}",
    ),
    (
        FILE_N,
        "C8 00 0A 80 01 81 C0 11 22 33",
        "200 {1=[{1=17 8=34 9=51}]}",
    ),
    (FILE_N, "C8 00 08 80 02 00 01 20", "UndefinedSlot 34"),
    (FILE_S, "CC 00 07 81 80 07 08", "204 {1=7 8=8}"),
    (FILE_S, "CC 00 05 40 07", "UndefinedSlot 1"),
    (
        FILE_DEEP,
        "CE 00 07 80 5D AB CD",
        "206 {1=(5 (6 (1 171)) 205)}",
    ),
    (
        FILE_DEEP,
        "CE 00 14 40 80 00 00 00 00 00 00 00 00 00 00 00 00 00 00 01",
        "206 {2=170141183460469231731687303715884105729}",
    ),
    (FILE_WIDE, WIDE_BLOCK, "207 {1=5 126={126=6}}"),
    // A part is one unit with its FX: cut within, it runs out at its first bit.
    (FILE_LONG_PART, "D0 00 06 80 00 02", "208 {1=<1>}"),
    (FILE_LONG_PART, "D0 00 05 80 01", "RunsOut 8"),
    (FILE_LONG_PART, "D0 00 07 80 00 03 0A", "208 {1=<1|5>}"),
    (FILE_LONG_PART, "D0 00 06 80 00 03", "RunsOut 24"),
];

#[test]
fn deep_and_wide_items_are_read(rt: HostRuntime) {
    each_is_read(&rt, rt.alloc(), &DEEP_AND_WIDE);
}

// Closed parts inside a wide item, a wide item in a wide one, and a closed item of one part, which has no FX bit at all.
const FILE_W_NESTED: &str = r#"category 207 edition "N" items {
item 010 "" wide { closed { part { A element 7 raw } part { B element 8 raw } } }
item 020 "" wide { wide { element 8 raw } }
item 030 "" closed { part { B element 8 raw } }
} uap { 010 020 030 }"#;

static WIDE_AND_CLOSED: [(&str, &str, &str); 16] = [
    (FILE_W, "CE 00 08 80 00 02 AA BB", "206 {1=[170 187]}"),
    (FILE_W, "CE 00 06 80 00 00", "206 {1=[]}"),
    // A counter cut within its octets runs out at its first bit.
    (FILE_W, "CE 00 05 80 00", "RunsOut 8"),
    (FILE_W, "CE 00 04 80", "RunsOut 8"),
    // 256 occurrences, of which one is there.
    (FILE_W, "CE 00 07 80 01 00 AA", "RunsOut 32"),
    (FILE_W, "CE 00 06 40 0B FF", "206 {2=<5|255>}"),
    (FILE_W, "CE 00 06 40 0B FE", "206 {2=<5|254>}"),
    (FILE_W, "CE 00 05 40 0A", "206 {2=<5>}"),
    (FILE_W, "CE 00 05 40 0B", "RunsOut 16"),
    (FILE_W, "CE 00 07 40 0B FF 00", "206 {2=<5|255>}{}"),
    (
        FILE_W_NESTED,
        "CF 00 09 80 00 02 0A 0B FF",
        "207 {1=[<5> <5|255>]}",
    ),
    (
        FILE_W_NESTED,
        "CF 00 0A 40 00 01 00 02 AA BB",
        "207 {2=[[170 187]]}",
    ),
    (FILE_W_NESTED, "CF 00 07 40 00 01 00", "RunsOut 24"),
    (FILE_W_NESTED, "CF 00 08 80 00 02 0A 0B", "RunsOut 40"),
    (FILE_W_NESTED, "CF 00 05 20 0B", "207 {3=<11>}"),
    (FILE_W_NESTED, "CF 00 04 20", "RunsOut 8"),
];

#[test]
fn wide_and_closed_items_are_read(rt: HostRuntime) {
    each_is_read(&rt, rt.alloc(), &WIDE_AND_CLOSED);
}

static CUTS: [(usize, u32); 18] = [
    (1, 8),
    (2, 16),
    (3, 16),
    (4, 32),
    (5, 40),
    (6, 48),
    (7, 56),
    (8, 64),
    (9, 72),
    (10, 80),
    (11, 88),
    (12, 96),
    (13, 96),
    (14, 112),
    (15, 120),
    (16, 128),
    (17, 136),
    (18, 144),
];

// The body cut to so many octets runs out at that bit.
fn runs_out(
    rt: &impl Abort,
    alloc: Global,
    file: &Accepted,
    body: &[u8],
    (cut, bit): (usize, u32),
) {
    assert!(rt; cut <= body.len());
    let raw = raw(rt, 205, &body[..cut]);
    let want = format!(in alloc; "RunsOut {bit}").expect(rt, "memory");
    let got = read_both_ways(rt, alloc, file, &raw, want.as_str());
    same(rt, got.as_str(), want.as_str(), "a body cut there");
}

fn each_cut_runs_out(rt: &impl Abort, alloc: Global, file: &Accepted, block: &str) {
    let octets = octets_of(rt, alloc, block);
    let body = raw_of(rt, &octets, block).body;
    for &cut in &CUTS {
        runs_out(rt, alloc, file, body, cut);
    }
}

// A body cut after each of its octets, and the bit at which the unit begins that doesn't fit.
#[test]
fn a_cut_body_runs_out_where_its_unit_begins(rt: HostRuntime) {
    let file = accepted(&rt, rt.alloc(), FILE_K);
    let want = "205 {1=6412 2=<1|5 2> 3=[5 6] 4=[170 187] 5=xCC DD 6={1=7 3=8} 7=9 8=10}";
    is_read_as(&rt, rt.alloc(), &file, RICH, want);
    each_cut_runs_out(&rt, rt.alloc(), &file, RICH);
}
