//! Blocks, and the octets that they are written in.
ghost use Rattle.ax_model.specs.OfCode.{HasNoFlaw};

use crate::decoding::{FILE_DEEP, FILE_WIDE, RICH, WIDE_BLOCK};
use crate::fixtures::{accepted, octets_of, raw_of, same};
use crate::seeing::read_both_ways;
use crate::shown::{shown_error, shown_octets};
use ax_check::Accepted;
use ax_model::{Block, Entries, RawBlock, Record, Records, Spec, fits};
use ax_values::{EncodeError, decode_block, encode_block};
use ax_vectors::{FILE_K, FILE_N, FILE_S, FILE_W};
use std::alloc::Global;
use std::process::Abort;

// A compound in a wide item.
const FILE_WIDE_COMPOUND: &str =
    r#"category 206 edition "C" items { item 010 "" wide { compound { A element 8 raw - - - - - - B element 8 raw } } } uap { 010 }"#;

static LEAST_FORMS: [(&str, &str, &str); 24] = [
    (FILE_K, "CD 00 07 81 00 19 0C", "CD 00 06 80 19 0C"),
    (FILE_K, "CD 00 06 40 03 54", "CD 00 06 40 03 54"),
    (FILE_K, "CD 00 06 20 0B 0C", "CD 00 06 20 0B 0C"),
    (FILE_K, "CD 00 07 10 02 AA BB", "CD 00 07 10 02 AA BB"),
    (FILE_K, "CD 00 06 04 20 07", "CD 00 06 04 20 07"),
    (FILE_K, "CD 00 05 10 00", "CD 00 05 10 00"),
    (FILE_K, "CD 00 05 08 01", "CD 00 05 08 01"),
    (FILE_K, "CD 00 05 40 00", "CD 00 05 40 00"),
    (FILE_K, "CD 00 06 40 01 00", "CD 00 06 40 01 00"),
    (FILE_K, "CD 00 08 02 05 02 06 00", "CD 00 08 02 05 02 06 00"),
    (FILE_K, "CD 00 05 01 00", "CD 00 04 00"),
    (FILE_K, RICH, RICH),
    (FILE_K, "CC 00 05 FF FF", "CC 00 05 FF FF"),
    (
        FILE_N,
        "C8 00 0B 80 02 81 00 11 01 80 22",
        "C8 00 0A 80 02 80 11 01 80 22",
    ),
    (FILE_S, "CC 00 07 81 80 07 08", "CC 00 07 81 80 07 08"),
    (FILE_S, "CC 00 06 81 00 07", "CC 00 05 80 07"),
    (FILE_DEEP, "CE 00 07 80 5D AB CD", "CE 00 07 80 5D AB CD"),
    (
        FILE_DEEP,
        "CE 00 14 40 80 00 00 00 00 00 00 00 00 00 00 00 00 00 00 01",
        "CE 00 14 40 80 00 00 00 00 00 00 00 00 00 00 00 00 00 00 01",
    ),
    (FILE_WIDE, WIDE_BLOCK, WIDE_BLOCK),
    (
        FILE_W,
        "CE 00 0A C0 00 02 AA BB 0B FF",
        "CE 00 0A C0 00 02 AA BB 0B FF",
    ),
    (FILE_W, "CE 00 08 C0 00 00 0B FE", "CE 00 08 C0 00 00 0B FE"),
    (FILE_W, "CE 00 05 40 0A", "CE 00 05 40 0A"),
    (FILE_W, "CE 00 06 80 00 00", "CE 00 06 80 00 00"),
    (
        FILE_WIDE_COMPOUND,
        "CE 00 09 80 00 01 81 00 05",
        "CE 00 08 80 00 01 80 05",
    ),
];

/// What a block is written as, or how many octets it would take where they are too many.
fn written(rt: &impl Abort, alloc: Global, spec: &Spec, block: &Block) -> String
    requires { HasNoFlaw spec.now }
{
    assert!(rt; fits(spec, block));
    match encode_block(alloc, spec, block) {
        Ok(octets) => shown_octets(rt, alloc, &octets),
        Err(EncodeError::TooLong { octets }) => {
            format!(in alloc; "TooLong {octets}").expect(rt, "memory")
        }
        Err(EncodeError::OutOfMemory) => rt.panic("out of memory"),
    }
}

/// The canonical form of a block, or its fault.
fn canon(rt: &impl Abort, alloc: Global, spec: &Spec, raw: &RawBlock<'_>) -> String
    requires { HasNoFlaw spec.now }
{
    match decode_block(alloc, spec, raw) {
        Ok(block) => written(rt, alloc, spec, &block),
        Err(error) => shown_error(rt, alloc, &error),
    }
}

/// Asserts that the canonical form of a block is that one, and that trees and views read the block alike.
fn is_written_as(rt: &impl Abort, alloc: Global, file: &Accepted, block: &str, want: &str) {
    let octets = octets_of(rt, alloc, block);
    let raw = raw_of(rt, &octets, block);
    let _ = read_both_ways(rt, alloc, file, &raw, block);
    let got = canon(rt, alloc, file.spec(), &raw);
    same(rt, got.as_str(), want, block);
}

fn each_is_written(rt: &impl Abort, alloc: Global, rows: &[(&str, &str, &str)]) {
    for &(text, block, want) in rows {
        let file = accepted(rt, alloc, text);
        is_written_as(rt, alloc, &file, block, want);
    }
}

// An octet that a presence field doesn't need is left out, and nothing else changes.
#[test]
fn blocks_are_written_in_their_least_form(rt: HostRuntime) {
    each_is_written(&rt, rt.alloc(), &LEAST_FORMS);
}

/// A block of that many records without items.
fn empty_records(rt: &impl Abort, alloc: Global, count: u32) -> Block {
    let mut records = Records::new(alloc);
    for _index in 0..count {
        if records.count() < 100_000 {
            let entries = Entries::new(alloc);
            records.push(Record { entries }).expect(rt, "memory");
        }
    }
    Block::Read {
        category: 205,
        records,
    }
}

/// What a block of that many records without items is written as under file K, whose category the block has.
fn records_written(rt: &impl Abort, alloc: Global, count: u32) -> String {
    let file = accepted(rt, alloc, FILE_K);
    let block = empty_records(rt, alloc, count);
    written(rt, alloc, file.spec(), &block)
}

// Each empty record is one octet, after the three of CAT and LEN.
#[test]
fn the_longest_block_has_65_535_octets(rt: HostRuntime) {
    let longest = records_written(&rt, rt.alloc(), 65_532);
    assert!(rt; longest.as_str().starts_with("CD FF FF 00 00 "));
    assert_eq!(rt; longest.len(), 65_535 * 3 - 1);
}

#[test]
fn a_block_of_65_536_octets_is_too_long(rt: HostRuntime) {
    let more = records_written(&rt, rt.alloc(), 65_533);
    same(&rt, more.as_str(), "TooLong 65536", "65,533 empty records");
}
