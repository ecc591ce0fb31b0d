//! Texts, and the octets of the blocks that they are.

use crate::checks::same_octets;
use crate::text_catalogues::{block_of, catalogue_of, encoded};
use crate::text_fixtures::octets_of;
use ax_check::Catalogue;
use ax_model::Block;
use ax_vectors::{CAT048_P1, FILE_A, FILE_H1, FILE_N};
use std::alloc::Global;
use std::process::Abort;

/// The octets of the block of a line, under the file of a category.
fn line_encoded(
    rt: &impl Abort,
    alloc: Global,
    catalogue: &Catalogue,
    category: u8,
    line: &str,
) -> Vec<u8> {
    let block = block_of(rt, alloc, catalogue, line.as_bytes());
    let file = catalogue.get(category).expect(rt, "a category");
    encoded(rt, alloc, file, &block)
}

/// Asserts that octets are those in hexadecimal, of the line that is named.
fn are_octets(rt: &impl Abort, alloc: Global, made: &[u8], want: &str, line: &str) {
    let want = octets_of(rt, alloc, want);
    same_octets(rt, made, &want, line);
}

/// Asserts that a line under a file of a category is the text of the block with these octets.
fn is_read_as(
    rt: &impl Abort,
    alloc: Global,
    &(file, category, line, want): &(&str, u8, &str, &str),
) {
    let catalogue = catalogue_of(rt, alloc, file);
    let made = line_encoded(rt, alloc, &catalogue, category, line);
    are_octets(rt, alloc, &made, want, line);
}

// Category files and their categories, lines, and the octets of the blocks.
const READ: [(&str, u8, &str, &str); 11] = [
    (
        CAT048_P1,
        48,
        "block 048 { record { 010 { SAC 25 SIC 12 } } }",
        "30 00 06 80 19 0C",
    ),
    (
        CAT048_P1,
        48,
        "block 048{record{010{SAC 25 SIC 12}}record{010{SAC 26 SIC 12}}}",
        "30 00 09 80 19 0C 80 1A 0C",
    ),
    (
        CAT048_P1,
        48,
        "block 048 { record { 020 { part { TYP 5 SIM 0 RDP 0 SPI 0 RAB 0 } part { TST 0 spare 0 ME 0 MI 0 FOEFRI 0 } } } }",
        "30 00 06 20 A1 00",
    ),
    (
        CAT048_P1,
        48,
        "block 048 { record { 030 { 5 6 } } }",
        "30 00 08 01 01 40 0B 0C",
    ),
    (
        CAT048_P1,
        48,
        "block 048 { record { SP \"aabb\" } }",
        "30 00 0A 01 01 01 04 03 AA BB",
    ),
    (
        CAT048_P1,
        48,
        "block 048 { record { SP \"\" } }",
        "30 00 08 01 01 01 04 01",
    ),
    (CAT048_P1, 48, "block 048 { record { } }", "30 00 04 00"),
    (
        CAT048_P1,
        48,
        "block 048 { record { 250 { } } }",
        "30 00 06 01 20 00",
    ),
    (
        FILE_N,
        200,
        "block 200 { record { 010 { { A 17 } { H 34 } } } }",
        "C8 00 0A 80 02 80 11 01 80 22",
    ),
    (
        FILE_H1,
        202,
        "block 202 { record { 010 { A 17 B 8755 } } }",
        "CA 00 08 80 C0 11 22 33",
    ),
    (FILE_A, 34, "opaque 062 \"80ff\"", "3E 00 05 80 FF"),
];

#[test]
fn blocks_are_read(rt: HostRuntime) {
    for row in &READ {
        is_read_as(&rt, rt.alloc(), row);
    }
}

/// Asserts that a block is opaque, of that category and with those octets.
fn is_opaque(rt: &impl Abort, block: &Block, wanted: u8, wanted_octets: &[u8]) {
    match block {
        Block::Opaque { category, octets } => {
            assert!(rt; *category == wanted);
            same_octets(rt, octets.as_slice(), wanted_octets, "an opaque block");
        }
        Block::Read { .. } => panic!(rt; "no opaque block"),
    }
}

#[test]
fn an_opaque_block_needs_no_file(rt: HostRuntime) {
    let catalogue = Catalogue::new(rt.alloc());
    let block = block_of(&rt, rt.alloc(), &catalogue, b"opaque 048 \"80ff\"");
    is_opaque(&rt, &block, 48, &[0x80, 0xFF]);
}
