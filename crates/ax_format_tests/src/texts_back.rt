//! What was printed for a block reads back as that block.

use crate::checks::same_octets;
use crate::text_catalogues::{block_of, catalogue_of, encoded};
use crate::text_fixtures::{octets_decoded, octets_of};
use ax_check::{Accepted, Catalogue};
use ax_text::block_text;
use ax_vectors::{CAT019_P1, CAT034_P1, CAT048_P1, FILE_A, FILE_H1, FILE_N};
use std::alloc::Global;
use std::process::Abort;

/// The text of the block that these octets are.
fn printed(rt: &impl Abort, alloc: Global, file: &Accepted, octets: &[u8]) -> Vec<u8> {
    let block = octets_decoded(rt, alloc, file.spec(), octets);
    block_text(alloc, file.spec(), &block).expect(rt, "a text")
}

/// The octets of the block that is read from the text of the block that these octets are.
fn printed_and_read(
    rt: &impl Abort,
    alloc: Global,
    catalogue: &Catalogue,
    octets: &[u8],
) -> Vec<u8> {
    let file = catalogue.at(0).expect(rt, "a file");
    let line = printed(rt, alloc, file, octets);
    let block = block_of(rt, alloc, catalogue, &line);
    encoded(rt, alloc, file, &block)
}

/// Asserts that a block in hexadecimal is printed and read back.
fn reads_back(rt: &impl Abort, alloc: Global, text: &str, block: &str) {
    let catalogue = catalogue_of(rt, alloc, text);
    let octets = octets_of(rt, alloc, block);
    let back = printed_and_read(rt, alloc, &catalogue, &octets);
    same_octets(rt, &back, &octets, block);
}

// Category files, and canonical blocks under them.
const BLOCKS: [(&str, &str); 18] = [
    (CAT048_P1, "30 00 06 20 A1 00"),
    (CAT048_P1, "30 00 05 20 A0"),
    (CAT048_P1, "30 00 08 01 01 40 0B 0C"),
    (CAT048_P1, "30 00 0A 01 01 01 04 03 AA BB"),
    (CAT048_P1, "30 00 08 01 01 01 04 01"),
    (CAT048_P1, "30 00 04 00"),
    (CAT048_P1, "30 00 05 02 00"),
    (CAT048_P1, "30 00 07 02 82 07 08"),
    (CAT048_P1, "30 00 06 01 20 00"),
    (
        CAT048_P1,
        "30 00 16 01 20 02 00 00 00 00 00 00 2A 51 00 00 00 00 00 00 00 0F",
    ),
    (CAT048_P1, "30 00 07 01 10 30 2A"),
    (CAT048_P1, "30 00 09 80 19 0C 80 1A 0C"),
    (CAT034_P1, "22 00 0B F0 19 0C 02 54 60 00 10"),
    (CAT019_P1, "13 00 0A E0 05 06 02 12 34 56"),
    (FILE_A, "22 00 07 C0 19 0C 01"),
    (FILE_A, "3E 00 05 80 FF"),
    (FILE_N, "C8 00 0A 80 02 80 11 01 80 22"),
    (FILE_H1, "CA 00 08 80 C0 11 22 33"),
];

#[test]
fn printed_blocks_read_back(rt: HostRuntime) {
    for &(file, block) in &BLOCKS {
        reads_back(&rt, rt.alloc(), file, block);
    }
}
