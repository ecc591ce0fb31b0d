//! Blocks and records as lines.
ghost use Rattle.ax_model.specs.OfCode.{BlockFits};

use crate::checks::same_octets;
use crate::text_fixtures::decoded;
use crate::texts::accepted;
use ax_check::Accepted;
use ax_model::{Block, Spec};
use ax_text::{block_text, opaque_text, record_text};
use ax_vectors::{CAT048_P1, FILE_A, FILE_H1, FILE_N};
use std::alloc::Global;
use std::process::Abort;

// An element of the greatest width.
const FILE_WIDE: &str =
    r#"category 006 edition "W" items { item 010 "" element 128 raw } uap { 010 }"#;

// Blocks of category 048 and their lines, each kind of item once.
const PRINTED: [(&str, &str); 12] = [
    (
        "30 00 06 20 A1 00",
        "block 048 { record { 020 { part { TYP 5 SIM 0 RDP 0 SPI 0 RAB 0 } part { TST 0 spare 0 ME 0 MI 0 FOEFRI 0 } } } }\n",
    ),
    (
        "30 00 05 20 A0",
        "block 048 { record { 020 { part { TYP 5 SIM 0 RDP 0 SPI 0 RAB 0 } } } }\n",
    ),
    (
        "30 00 08 01 01 40 0B 0C",
        "block 048 { record { 030 { 5 6 } } }\n",
    ),
    (
        "30 00 0A 01 01 01 04 03 AA BB",
        "block 048 { record { SP \"aabb\" } }\n",
    ),
    (
        "30 00 08 01 01 01 04 01",
        "block 048 { record { SP \"\" } }\n",
    ),
    ("30 00 04 00", "block 048 { record { } }\n"),
    ("30 00 05 02 00", "block 048 { record { 130 { } } }\n"),
    (
        "30 00 07 02 82 07 08",
        "block 048 { record { 130 { SRL 7 APD 8 } } }\n",
    ),
    ("30 00 06 01 20 00", "block 048 { record { 250 { } } }\n"),
    (
        "30 00 16 01 20 02 00 00 00 00 00 00 2A 51 00 00 00 00 00 00 00 0F",
        "block 048 { record { 250 { { MB 42 BDS1 5 BDS2 1 } { MB 0 BDS1 0 BDS2 15 } } } }\n",
    ),
    (
        "30 00 07 01 10 30 2A",
        "block 048 { record { 161 { spare 3 TRN 42 } } }\n",
    ),
    (
        "30 00 09 80 19 0C 80 1A 0C",
        "block 048 { record { 010 { SAC 25 SIC 12 } } record { 010 { SAC 26 SIC 12 } } }\n",
    ),
];

/// Asserts that the line of the block that octets in hexadecimal are is as wanted.
fn is_printed_as(rt: &impl Abort, alloc: Global, file: &Accepted, block: &str, want: &str) {
    let found = decoded(rt, alloc, file.spec(), block);
    let line = block_text(alloc, file.spec(), &found).expect(rt, "memory");
    same_octets(rt, &line, want.as_bytes(), block);
}

/// Asserts the same under a category file.
fn is_printed_under(rt: &impl Abort, alloc: Global, &(text, block, want): &(&str, &str, &str)) {
    let file = accepted(rt, alloc, text);
    is_printed_as(rt, alloc, &file, block, want);
}

#[test]
fn each_kind_is_printed(rt: HostRuntime) {
    let file = accepted(&rt, rt.alloc(), CAT048_P1);
    for &(block, want) in &PRINTED {
        is_printed_as(&rt, rt.alloc(), &file, block, want);
    }
}

// Category files, blocks under them, and their lines.
const OTHER_PRINTED: [(&str, &str, &str); 6] = [
    (FILE_A, "3E 00 05 80 FF", "opaque 062 \"80ff\"\n"),
    (FILE_A, "07 00 04 00", "opaque 007 \"00\"\n"),
    (
        FILE_N,
        "C8 00 0B 80 02 81 00 11 01 80 22",
        "block 200 { record { 010 { { A 17 } { H 34 } } } }\n",
    ),
    (
        FILE_H1,
        "CA 00 08 80 C0 11 22 33",
        "block 202 { record { 010 { A 17 B 8755 } } }\n",
    ),
    (
        FILE_WIDE,
        "06 00 14 80 00 00 00 00 00 00 00 00 00 00 00 00 00 00 00 00",
        "block 006 { record { 010 0 } }\n",
    ),
    (
        FILE_WIDE,
        "06 00 14 80 FF FF FF FF FF FF FF FF FF FF FF FF FF FF FF FF",
        "block 006 { record { 010 340282366920938463463374607431768211455 } }\n",
    ),
];

#[test]
fn blocks_of_other_categories_are_printed(rt: HostRuntime) {
    for row in &OTHER_PRINTED {
        is_printed_under(&rt, rt.alloc(), row);
    }
}

#[test]
fn opaque_octets_are_printed(rt: HostRuntime) {
    let line = opaque_text(rt.alloc(), 62, &[0x80, 0xFF]).expect(&rt, "memory");
    same_octets(&rt, &line, b"opaque 062 \"80ff\"\n", "3E 00 05 80 FF");
}

/// The text of the one record of a block.
#[tactic(auto, using(crate::proofs::Records::first_shape))]
fn text_of_record(rt: &impl Abort, alloc: Global, spec: &Spec, block: &Block) -> Vec<u8>
    requires { BlockFits spec.now block.now }
{
    let Block::Read { records, .. } = block else {
        panic!(rt; "no block of records");
    };
    assert!(rt; records.count() == 1);
    let one = records.as_slice().get(0).expect(rt, "a record");
    record_text(alloc, spec, one).expect(rt, "memory")
}

#[test]
fn a_record_is_printed_without_its_block(rt: HostRuntime) {
    let alloc = rt.alloc();
    let file = accepted(&rt, alloc, CAT048_P1);
    let octets = "30 00 08 01 01 40 0B 0C";
    let block = decoded(&rt, alloc, file.spec(), octets);
    let text = text_of_record(&rt, alloc, file.spec(), &block);
    same_octets(&rt, &text, b"record { 030 { 5 6 } }", octets);
}
