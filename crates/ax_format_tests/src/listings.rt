//! Blocks as listings.

use crate::checks::same_octets;
use crate::text_fixtures::{decoded, octets_decoded, octets_of};
use crate::texts::accepted;
use ax_check::Accepted;
use ax_text::{show_lines, show_opaque};
use ax_values::encode_block;
use ax_vectors::{CAT048_P1, FILE_A};
use std::alloc::Global;
use std::process::Abort;

const TARGET_REPORT: &str =
    "30 00 1E FD D0 19 0C 35 00 00 A0 19 00 40 00 0E 00 05 78 3C 65 01 04 2C 60 82 08 20 00 2A";

const TARGET_REPORT_LISTED: &str = r#"block 0 category 048 octets 30 records 1
record 0
048/010/SAC = 25
048/010/SIC = 12
048/140 = 3473408 27136/1 "s"
048/020 parts 1
048/020/TYP = 5
048/020/SIM = 0
048/020/RDP = 0
048/020/SPI = 0
048/020/RAB = 0
048/040/RHO = 6400 25/1 "NM"
048/040/THETA = 16384 90/1 "deg"
048/070/V = 0
048/070/G = 0
048/070/L = 0
048/070/spare = 0
048/070/MODE3A = 3584 "7000"
048/090/V = 0
048/090/G = 0
048/090/FL = 1400 350/1 "FL"
048/220 = 3958017
048/240 = 4588644206624 "AB1     "
048/161/spare = 0
048/161/TRN = 42
"#;

// Each content, with several elements of those that have ends.
const FILE_CONTENTS: &str = r#"category 009 edition "C" items {
item 010 "" group { A element 8 table { 1 "one" 1 "uno" 2 "two" } B element 8 table { 1 "one" } }
item 020 "" element 32 ascii
item 030 "" element 48 icao
item 040 "" group { A element 8 integer signed B element 8 integer unsigned C element 8 integer signed }
item 050 "" element 128 integer signed
item 060 "" group { A element 8 quantity signed 5 4 "m s" B element 8 quantity unsigned 7 3 "" C element 8 quantity unsigned 10 4 "x" }
item 070 "" element 64 quantity unsigned 999999999999999999 1 "u"
item 080 "" element 64 quantity signed 999999999999999999 999999999999999998 "u"
} uap { 010 020 030 040 050 060 070 080 }"#;

// Occurrences in occurrences, and a group in a counted item in a compound.
const FILE_NESTED: &str = r#"category 010 edition "N" items {
item 010 "" counted { counted { element 8 raw } }
item 020 "" compound { - A counted { group { B element 8 raw spare 4 C element 4 integer signed } } D explicit }
} uap { 010 020 }"#;

// Category files, the number of a block under each, its octets, and its listing.
const LISTED: [(&str, u64, &str, &str); 9] = [
    (CAT048_P1, 0, TARGET_REPORT, TARGET_REPORT_LISTED),
    (
        FILE_A,
        0,
        "22 00 0A E0 19 0C 01 00 00 80",
        "block 0 category 034 octets 10 records 1\nrecord 0\n034/010/SAC = 25\n034/010/SIC = 12\n034/000 = 1 \"North marker message\"\n034/030 = 128 1/1 \"s\"\n",
    ),
    (
        CAT048_P1,
        7,
        "30 00 08 0C 0E 00 3F FF",
        "block 7 category 048 octets 8 records 1\nrecord 0\n048/070/V = 0\n048/070/G = 0\n048/070/L = 0\n048/070/spare = 0\n048/070/MODE3A = 3584 \"7000\"\n048/090/V = 0\n048/090/G = 0\n048/090/FL = 16383 -1/4 \"FL\"\n",
    ),
    (
        CAT048_P1,
        0,
        "30 00 06 20 A1 00",
        "block 0 category 048 octets 6 records 1\nrecord 0\n048/020 parts 2\n048/020/TYP = 5\n048/020/SIM = 0\n048/020/RDP = 0\n048/020/SPI = 0\n048/020/RAB = 0\n048/020/TST = 0\n048/020/spare = 0\n048/020/ME = 0\n048/020/MI = 0\n048/020/FOEFRI = 0\n",
    ),
    (
        FILE_A,
        0,
        "3E 00 05 80 FF",
        "block 0 category 062 octets 5 opaque \"80ff\"\n",
    ),
    (
        CAT048_P1,
        18446744073709551615,
        "30 00 0C 81 00 19 0C 01 01 40 0B 0C",
        "block 18446744073709551615 category 048 octets 11 records 2\nrecord 0\n048/010/SAC = 25\n048/010/SIC = 12\nrecord 1\n048/030 occurrences 2\n048/030[0] = 5\n048/030[1] = 6\n",
    ),
    (
        CAT048_P1,
        0,
        "30 00 08 01 01 01 04 01",
        "block 0 category 048 octets 8 records 1\nrecord 0\n048/SP octets \"\"\n",
    ),
    (
        CAT048_P1,
        0,
        "30 00 05 02 00",
        "block 0 category 048 octets 5 records 1\nrecord 0\n048/130 subitems 0\n",
    ),
    (
        FILE_NESTED,
        0,
        "0A 00 13 C0 02 02 05 06 01 07 60 02 08 0F 09 F8 03 AA BB",
        "block 0 category 010 octets 19 records 1\nrecord 0\n010/010 occurrences 2\n010/010[0] occurrences 2\n010/010[0][0] = 5\n010/010[0][1] = 6\n010/010[1] occurrences 1\n010/010[1][0] = 7\n010/020 subitems 2\n010/020/A occurrences 2\n010/020/A[0]/B = 8\n010/020/A[0]/spare = 0\n010/020/A[0]/C = 15 -1\n010/020/A[1]/B = 9\n010/020/A[1]/spare = 15\n010/020/A[1]/C = 8 -8\n010/020/D octets \"aabb\"\n",
    ),
];

/// A block: its number, its octets, and what it is named where its listing is another one.
#[derive(Clone, Copy)]
struct Numbered<'b> {
    number: u64,
    octets: &'b [u8],
    name: &'b str,
}

/// Asserts that a block has this listing.
fn has_listing(rt: &impl Abort, alloc: Global, file: &Accepted, one: &Numbered<'_>, want: &str) {
    let block = octets_decoded(rt, alloc, file.spec(), one.octets);
    let lines = show_lines(alloc, file.spec(), &block, one.number).expect(rt, "memory");
    same_octets(rt, &lines, want.as_bytes(), one.name);
}

/// Asserts the same of octets in hexadecimal, under a category file.
fn is_listed_as(
    rt: &impl Abort,
    alloc: Global,
    &(text, number, block, want): &(&str, u64, &str, &str),
) {
    let file = accepted(rt, alloc, text);
    let octets = octets_of(rt, alloc, block);
    let one = Numbered {
        number,
        octets: &octets,
        name: block,
    };
    has_listing(rt, alloc, &file, &one, want);
}

#[test]
fn blocks_are_listed(rt: HostRuntime) {
    for row in &LISTED {
        is_listed_as(&rt, rt.alloc(), row);
    }
}

#[test]
fn opaque_octets_are_listed(rt: HostRuntime) {
    let line = show_opaque(rt.alloc(), 3, 7, &[0x80, 0xFF]).expect(&rt, "memory");
    let want = b"block 3 category 007 octets 5 opaque \"80ff\"\n";
    same_octets(&rt, &line, want, "07 00 05 80 FF");
}

// Records of one item under `FILE_CONTENTS`, and the lines of the item.
const REMARKED: [(&str, &str); 12] = [
    ("80 01 01", "009/010/A = 1 \"one\"\n009/010/B = 1 \"one\"\n"),
    ("80 02 02", "009/010/A = 2 \"two\"\n009/010/B = 2\n"),
    ("40 41 0A 22 7E", "009/020 = 1091183230 \"A..~\"\n"),
    ("40 20 7F 1F 80", "009/020 = 545202048 \" ...\"\n"),
    (
        "20 00 16 9B 83 0E 7A",
        "009/030 = 97098337914 \".AZ. 09.\"\n",
    ),
    (
        "10 80 FF 7F",
        "009/040/A = 128 -128\n009/040/B = 255\n009/040/C = 127 127\n",
    ),
    (
        "10 FF 00 00",
        "009/040/A = 255 -1\n009/040/B = 0\n009/040/C = 0 0\n",
    ),
    (
        "08 80 00 00 00 00 00 00 00 00 00 00 00 00 00 00 00",
        "009/050 = 170141183460469231731687303715884105728 -170141183460469231731687303715884105728\n",
    ),
    (
        "08 FF FF FF FF FF FF FF FF FF FF FF FF FF FF FF FF",
        "009/050 = 340282366920938463463374607431768211455 -1\n",
    ),
    (
        "04 FA 00 06",
        "009/060/A = 250 -15/2 \"m s\"\n009/060/B = 0 0/1 \"\"\n009/060/C = 6 15/1 \"x\"\n",
    ),
    (
        "02 FF FF FF FF FF FF FF FF",
        "009/070 = 18446744073709551615 18446744073709551596553255926290448385/1 \"u\"\n",
    ),
    (
        "01 80 80 00 00 00 00 00 00 00",
        "009/080 = 9223372036854775808 -4611686018427387899388313981572612096/499999999999999999 \"u\"\n",
    ),
];

/// The block of category 9 with the body that is in hexadecimal.
fn block_of(rt: &impl Abort, alloc: Global, body: &str) -> Vec<u8> {
    let body = octets_of(rt, alloc, body);
    assert!(rt; body.len() < 256 - 3);
    let mut block = [9, 0, 3 + body.len() as u8]
        .to_vec(alloc)
        .expect(rt, "memory");
    block.extend_from_slice(&body).expect(rt, "memory");
    block
}

/// Asserts that a block of category 9 with one record, whose item has these lines, is listed with them.
fn is_remarked_as(rt: &impl Abort, alloc: Global, file: &Accepted, item: &str, want: &str) {
    let block = block_of(rt, alloc, item);
    let length = block.len();
    let want = format!(in alloc;
        "block 0 category 009 octets {length} records 1\nrecord 0\n{want}"
    );
    let want = want.expect(rt, "memory");
    let one = Numbered {
        number: 0,
        octets: &block,
        name: item,
    };
    has_listing(rt, alloc, file, &one, want.as_str());
}

#[test]
fn each_content_is_remarked(rt: HostRuntime) {
    let file = accepted(&rt, rt.alloc(), FILE_CONTENTS);
    for &(item, want) in &REMARKED {
        is_remarked_as(&rt, rt.alloc(), &file, item, want);
    }
}

#[test]
fn a_listed_block_is_canonical(rt: HostRuntime) {
    let alloc = rt.alloc();
    let file = accepted(&rt, alloc, CAT048_P1);
    let block = decoded(&rt, alloc, file.spec(), TARGET_REPORT);
    let canonical = encode_block(alloc, file.spec(), &block).expect(&rt, "octets");
    same_octets(
        &rt,
        &canonical,
        &octets_of(&rt, alloc, TARGET_REPORT),
        TARGET_REPORT,
    );
}
