//! The records of a block that an expression holds of, in canonical form.
use crate::filter_fixtures::{Case, catalogue, keeps};
use ax_check::Catalogue;
use ax_vectors::{CAT034_P1, CAT048_P1};
use std::alloc::Global;
use std::process::Abort;

// A record with SAC 25, in the canonical form and with a presence octet too many.
const SAC: &str = "30 00 06 80 19 0C";

const SAC_REDUNDANT: &str = "30 00 07 81 00 19 0C";

// A record of each category, with one item and the same octets.
const OF_034: &str = "22 00 06 80 19 0C";

// Item 020 with its first part alone, and with its second part, in which TST is 1.
const ONE_PART: &str = "30 00 05 20 A0";

const TWO_PARTS: &str = "30 00 06 20 A1 80";

// Item 130 with its subitem SRR alone.
const SRR: &str = "30 00 06 02 40 05";

// Items 010 and 130, the latter with all its subitems.
const PLOT: &str = "30 00 0E 82 19 0C FE 01 02 03 04 05 06 07";

// The counted item 250, and item 120 with its counted subitem RDS alone.
const COUNTED: &str = "30 00 0E 01 20 01 00 00 00 00 00 00 00 00";

const RDS: &str = "30 00 0E 01 01 04 40 01 00 00 00 00 00 00";

// The expression, the block, and what it keeps of it.
const KEPT: [(&str, &str, &str); 24] = [
    (
        "is 048/010/SAC = 25",
        "30 00 0C 80 19 0C 80 1A 0C 80 19 0D",
        "30 00 09 80 19 0C 80 19 0D",
    ),
    (
        "not { is 048/010/SAC = 25 }",
        "30 00 0C 80 19 0C 80 1A 0C 80 19 0D",
        "30 00 06 80 1A 0C",
    ),
    ("present 034/010", SAC, ""),
    ("present 048/010", SAC, SAC),
    ("present 034/010", OF_034, OF_034),
    ("any { present 034/010 present 048/010 }", SAC, SAC),
    ("any { present 034/010 present 048/010 }", OF_034, OF_034),
    ("all { present 034/010 present 048/010 }", SAC, ""),
    ("is 034/010/SAC = 25", SAC, ""),
    ("any { }", SAC_REDUNDANT, ""),
    ("all { }", SAC_REDUNDANT, SAC),
    ("not { any { } }", SAC_REDUNDANT, SAC),
    ("all { }", "30 00 04 00", "30 00 04 00"),
    ("present 048/020/TYP", ONE_PART, ONE_PART),
    ("present 048/020/TST", ONE_PART, ""),
    ("not { is 048/020/TST = 1 }", ONE_PART, ONE_PART),
    ("is 048/020/TST != 1", ONE_PART, ""),
    ("present 048/020/TST", TWO_PARTS, TWO_PARTS),
    ("is 048/020/TST = 1", TWO_PARTS, TWO_PARTS),
    ("is 048/020/TST != 1", TWO_PARTS, ""),
    ("present 048/130", SRR, SRR),
    ("present 048/130/SRL", SRR, ""),
    ("present 048/130/SRR", SRR, SRR),
    (
        "is 048/090/FL < 0",
        "30 00 08 0C 0E 00 3F FF",
        "30 00 08 0C 0E 00 3F FF",
    ),
];

// The same of expressions with more than a few tests, each on an item of another kind.
const OF_MANY: [(&str, &str, &str); 5] = [
    (
        "all { is 048/010/SAC = 25 is 048/010/SIC = 12 present 048/010 not { present 048/020 } not { is 048/090/FL < 0 } }",
        "30 00 0C 80 19 0C 80 1A 0C 80 19 0D",
        "30 00 06 80 19 0C",
    ),
    (
        "any { is 048/020/TST = 1 present 048/130/SRL present 034/010 is 048/010/SAC = 25 is 048/090/FL < 0 }",
        ONE_PART,
        "",
    ),
    (
        "any { is 048/020/TST = 1 present 048/130/SRL present 034/010 is 048/010/SAC = 25 is 048/090/FL < 0 }",
        TWO_PARTS,
        TWO_PARTS,
    ),
    (
        "all { present 048/130 not { present 048/130/SRL } present 048/130/SRR is 048/130/SRR = 5 not { present 048/010 } }",
        SRR,
        SRR,
    ),
    (
        "any { present 048/010 present 048/020 present 048/130 present 034/010 is 048/090/FL < 0 }",
        "30 00 08 0C 0E 00 3F FF",
        "30 00 08 0C 0E 00 3F FF",
    ),
];

// The same of tests of items that aren't there, of tests of two categories, and of what several tests ask.
const TOGETHER: [(&str, &str, &str); 17] = [
    (
        "not { any { is 048/020/TST = 1 is 048/020/TST = 0 present 048/130/SRL is 048/090/FL < 0 present 048/250 } }",
        SAC,
        SAC,
    ),
    (
        "not { any { is 048/020/TST = 1 is 048/020/TST = 0 present 048/130/SRL is 048/090/FL < 0 present 048/250 } }",
        TWO_PARTS,
        "",
    ),
    (
        "any { not { present 048/130 } present 048/020 present 048/250 present 048/030 present 048/120 }",
        SAC,
        SAC,
    ),
    (
        "any { not { present 048/130 } present 048/020 present 048/250 present 048/030 present 048/120 }",
        SRR,
        "",
    ),
    (
        "any { present 048/020 present 048/130 is 048/090/FL < 0 is 048/010/SAC = 25 present 048/250 }",
        SAC,
        SAC,
    ),
    (
        "any { present 048/020 present 048/130 is 048/090/FL < 0 is 048/010/SAC = 26 present 048/250 }",
        SAC,
        "",
    ),
    (
        "any { present 034/010 is 034/010/SAC = 25 is 034/010/SIC = 12 present 034/000 present 048/020 }",
        SAC,
        "",
    ),
    (
        "any { present 034/010 is 034/010/SAC = 25 is 034/010/SIC = 12 present 034/000 present 048/020 }",
        OF_034,
        OF_034,
    ),
    (
        "all { not { present 034/010 } not { is 034/010/SAC = 25 } present 048/010 not { present 034/000 } not { present 048/020 } }",
        SAC,
        SAC,
    ),
    (
        "all { not { present 034/010 } not { is 034/010/SAC = 25 } present 048/010 not { present 034/000 } not { present 048/020 } }",
        OF_034,
        "",
    ),
    (
        "all { present 048/250 present 048/250 not { present 048/120/RDS } present 048/250 not { present 048/010 } }",
        COUNTED,
        COUNTED,
    ),
    (
        "all { present 048/120/RDS present 048/120 present 048/120/RDS not { present 048/120/CAL } not { is 048/120/CAL = 5 } }",
        RDS,
        RDS,
    ),
    (
        "any { is 048/010/SAC = 1 is 048/010/SAC = 2 is 048/010/SIC = 25 is 048/010/SAC = 4 is 048/010/SAC = 25 }",
        SAC,
        SAC,
    ),
    (
        "any { is 048/010/SAC = 1 is 048/010/SAC = 2 is 048/010/SIC = 25 is 048/010/SAC = 4 is 048/010/SAC = 12 }",
        SAC,
        "",
    ),
    // More questions than there are answers kept at a time, some of them asked again.
    (
        r#"all { is 048/130/SRL = 1 is 048/130/SRR = 2 is 048/130/SAM = 3 is 048/130/PRL = 4 is 048/130/PAM = 5 is 048/130/RPD = 6
        is 048/130/APD = 7 present 048/130/SRL present 048/130/SRR present 048/130/SAM present 048/130/PRL present 048/130/PAM
        present 048/130/RPD present 048/130/APD is 048/010/SAC = 25 is 048/010/SIC = 12 present 048/010 is 048/130/SRL = 1
        present 048/130 is 048/130/SRR = 2 not { is 048/130/SRL = 0 } present 048/010 }"#,
        PLOT,
        PLOT,
    ),
    // More tests than stand together.
    (
        r#"any { present 048/020 present 048/020 present 048/020 present 048/020 present 048/020 present 048/020 present 048/020 present 048/020
        present 048/020 present 048/020 present 048/020 present 048/020 present 048/020 present 048/020 present 048/020 present 048/020
        present 048/020 present 048/020 present 048/020 present 048/020 present 048/020 present 048/020 present 048/020 present 048/020
        present 048/020 present 048/020 present 048/020 present 048/020 present 048/020 present 048/020 present 048/020 present 048/020
        present 048/130 present 048/010 present 048/250 }"#,
        SAC,
        SAC,
    ),
    (
        r#"any { present 048/020 present 048/020 present 048/020 present 048/020 present 048/020 present 048/020 present 048/020 present 048/020
        present 048/020 present 048/020 present 048/020 present 048/020 present 048/020 present 048/020 present 048/020 present 048/020
        present 048/020 present 048/020 present 048/020 present 048/020 present 048/020 present 048/020 present 048/020 present 048/020
        present 048/020 present 048/020 present 048/020 present 048/020 present 048/020 present 048/020 present 048/020 present 048/020
        present 048/130 present 048/250 }"#,
        SAC,
        "",
    ),
];

fn each_keeps(rt: &impl Abort, alloc: Global, files: &Catalogue, rows: &[(&str, &str, &str)]) {
    for &(text, block, want) in rows {
        keeps(rt, alloc, files, Case { text, block, want });
    }
}

#[test]
fn records_are_kept(rt: HostRuntime) {
    let files = catalogue(&rt, rt.alloc(), CAT034_P1, CAT048_P1);
    each_keeps(&rt, rt.alloc(), &files, &KEPT);
    each_keeps(&rt, rt.alloc(), &files, &OF_MANY);
    each_keeps(&rt, rt.alloc(), &files, &TOGETHER);
}

// Elements of the greatest width, without a sign and with one.
const FILE_WIDE: &str = r#"category 209 edition "W" items {
item 010 "" element 128 raw
item 020 "" element 128 integer signed
} uap { 010 020 }"#;

// 2^128 - 1 and, in two's complement, -1 and -2^127.
const ONES: &str = "D1 00 14 80 FF FF FF FF FF FF FF FF FF FF FF FF FF FF FF FF";

const MINUS_ONE: &str = "D1 00 14 40 FF FF FF FF FF FF FF FF FF FF FF FF FF FF FF FF";

const LEAST: &str = "D1 00 14 40 80 00 00 00 00 00 00 00 00 00 00 00 00 00 00 00";

const WIDE: [(&str, &str, &str); 5] = [
    (
        "is 209/010 > 99999999999999999999999999999999999999",
        ONES,
        ONES,
    ),
    ("is 209/010 = -1", ONES, ""),
    ("is 209/020 = -1", MINUS_ONE, MINUS_ONE),
    (
        "is 209/020 < -99999999999999999999999999999999999999",
        LEAST,
        LEAST,
    ),
    (
        "is 209/020 < -99999999999999999999999999999999999999",
        MINUS_ONE,
        "",
    ),
];

#[test]
fn the_greatest_width(rt: HostRuntime) {
    let files = catalogue(&rt, rt.alloc(), CAT034_P1, FILE_WIDE);
    each_keeps(&rt, rt.alloc(), &files, &WIDE);
}
