//! `canon` over inputs without fault and with one.

use crate::world::{Left, Outside, Run, bytes, leaves, leaves_octets};

const NORTH: &str = "22 00 0A E0 19 0C 01 00 00 80";

const MIXED: &str = "30 00 07 81 00 19 0C 3E 00 05 80 FF 22 00 0A E0 19 0C 01 00 00 80 30 00 04 00";

const MIXED_CANONICAL: &str =
    "30 00 06 80 19 0C 3E 00 05 80 FF 22 00 0A E0 19 0C 01 00 00 80 30 00 04 00";

// Three records, of which the first, the second or the third has a presence octet that marks nothing.
const THREE_RECORDS: &str = "30 00 0C 80 19 0C 80 1A 0C 80 1B 0C";

const FIRST_REDUNDANT: &str = "30 00 0D 81 00 19 0C 80 1A 0C 80 1B 0C";

const MIDDLE_REDUNDANT: &str = "30 00 0D 80 19 0C 81 00 1A 0C 80 1B 0C";

const LAST_REDUNDANT: &str = "30 00 0D 80 19 0C 80 1A 0C 81 00 1B 0C";

// The words, the input and the output, and how the calls are cut.
static DONE: [(&str, &str, &str, Outside); 32] = [
    ("canon A", "", "", Outside::Sound),
    ("canon A", NORTH, NORTH, Outside::Sound),
    ("canon E", NORTH, NORTH, Outside::Sound),
    ("canon commented", NORTH, NORTH, Outside::Sound),
    ("canon A", NORTH, NORTH, Outside::OctetReads),
    ("canon E", NORTH, NORTH, Outside::OctetReads),
    ("canon A", NORTH, NORTH, Outside::CutReads),
    ("canon E", NORTH, NORTH, Outside::CutReads),
    ("canon A", NORTH, NORTH, Outside::OctetWrites),
    ("canon E", NORTH, NORTH, Outside::OctetWrites),
    ("canon A", "22 00 04 00", "22 00 04 00", Outside::Sound),
    ("canon E", "22 00 04 00", "22 00 04 00", Outside::Sound),
    (
        "canon A",
        "22 00 09 80 19 0C 80 19 0D",
        "22 00 09 80 19 0C 80 19 0D",
        Outside::Sound,
    ),
    (
        "canon E",
        "22 00 09 80 19 0C 80 19 0D",
        "22 00 09 80 19 0C 80 19 0D",
        Outside::Sound,
    ),
    (
        "canon A",
        "3E 00 05 80 FF",
        "3E 00 05 80 FF",
        Outside::Sound,
    ),
    (
        "canon 048",
        "30 00 07 81 00 19 0C",
        "30 00 06 80 19 0C",
        Outside::Sound,
    ),
    ("canon 048", "30 00 04 00", "30 00 04 00", Outside::Sound),
    (
        "canon 048",
        "30 00 06 20 A1 00",
        "30 00 06 20 A1 00",
        Outside::Sound,
    ),
    (
        "canon 048",
        "30 00 06 01 20 00",
        "30 00 06 01 20 00",
        Outside::Sound,
    ),
    (
        "canon 048",
        "30 00 0A 01 01 01 04 03 AA BB",
        "30 00 0A 01 01 01 04 03 AA BB",
        Outside::Sound,
    ),
    (
        "canon N",
        "C8 00 0B 80 02 81 00 11 01 80 22",
        "C8 00 0A 80 02 80 11 01 80 22",
        Outside::Sound,
    ),
    ("canon A 048", MIXED, MIXED_CANONICAL, Outside::Sound),
    ("canon S", "CC 00 05 01 00", "CC 00 04 00", Outside::Sound),
    ("canon 048", FIRST_REDUNDANT, THREE_RECORDS, Outside::Sound),
    ("canon 048", MIDDLE_REDUNDANT, THREE_RECORDS, Outside::Sound),
    ("canon 048", LAST_REDUNDANT, THREE_RECORDS, Outside::Sound),
    (
        "filter all{} 048",
        FIRST_REDUNDANT,
        THREE_RECORDS,
        Outside::Sound,
    ),
    (
        "filter all{} 048",
        MIDDLE_REDUNDANT,
        THREE_RECORDS,
        Outside::Sound,
    ),
    (
        "filter all{} 048",
        LAST_REDUNDANT,
        THREE_RECORDS,
        Outside::Sound,
    ),
    (
        "migrate 048 048",
        FIRST_REDUNDANT,
        THREE_RECORDS,
        Outside::Sound,
    ),
    (
        "migrate 048 048",
        MIDDLE_REDUNDANT,
        THREE_RECORDS,
        Outside::Sound,
    ),
    (
        "migrate 048 048",
        LAST_REDUNDANT,
        THREE_RECORDS,
        Outside::Sound,
    ),
];

#[test]
fn canonical_octets_of_inputs_without_fault(rt: HostRuntime) {
    let alloc = rt.alloc();
    for &(words, input, out, outside) in &DONE {
        let run = Run {
            words,
            input,
            outside,
        };
        leaves_octets(&rt, alloc, run, (0, out, "", 0));
    }
}

// The largest block, with a record of no item in each octet of its body.
#[test]
fn the_largest_block_is_unchanged(rt: HostRuntime) {
    let alloc = rt.alloc();
    let mut input = bytes(&rt, alloc, "30 FF FF");
    input.extend_from_slice(&[0; 65_532]).expect(&rt, "memory");
    let want = Left {
        status: 0,
        out: &input,
        report: b"",
        left: 0,
    };
    leaves(&rt, alloc, Run::sound("canon 048", input.as_slice()), want);
}

// The words, the input, the output before the fault, the report, and how many octets aren't read.
static REFUSED: [(&str, &str, &str, &str, usize); 23] = [
    (
        "canon A",
        "22 00 04 01",
        "",
        "refused block 0 bit 31 PresenceTooLong\n",
        0,
    ),
    (
        "canon E",
        "22 00 04 01",
        "",
        "refused block 0 bit 31 PresenceTooLong\n",
        0,
    ),
    (
        "canon A",
        "22 00 04 10",
        "",
        "refused block 0 bit 27 UndefinedSlot\n",
        0,
    ),
    (
        "canon E",
        "22 00 04 10",
        "",
        "refused block 0 bit 27 UndefinedSlot\n",
        0,
    ),
    (
        "canon A",
        "22 00 05 80 19",
        "",
        "refused block 0 bit 32 RunsOut\n",
        0,
    ),
    (
        "canon E",
        "22 00 05 80 19",
        "",
        "refused block 0 bit 32 RunsOut\n",
        0,
    ),
    (
        "canon 048",
        "30 00 06 20 A1 01",
        "",
        "refused block 0 bit 47 ExtensionPastEnd\n",
        0,
    ),
    (
        "canon 048",
        "30 00 06 01 20 01",
        "",
        "refused block 0 bit 48 RunsOut\n",
        0,
    ),
    (
        "canon 048",
        "30 00 08 01 01 01 04 00",
        "",
        "refused block 0 bit 56 BadExplicitLength\n",
        0,
    ),
    (
        "canon 048",
        "30 00 05 80 19",
        "",
        "refused block 0 bit 32 RunsOut\n",
        0,
    ),
    (
        "canon 048",
        "30 00 04 81",
        "",
        "refused block 0 bit 32 RunsOut\n",
        0,
    ),
    (
        "canon 048",
        "30 00 03",
        "",
        "refused block 0 bit 8 BadLen\n",
        0,
    ),
    (
        "canon 048",
        "30 00 00",
        "",
        "refused block 0 bit 8 BadLen\n",
        0,
    ),
    (
        "canon A",
        "3E 00 03",
        "",
        "refused block 0 bit 8 BadLen\n",
        0,
    ),
    (
        "canon 048",
        "30 00",
        "",
        "refused block 0 bit 16 EndsInHeader\n",
        0,
    ),
    (
        "canon 048",
        "30 00 06 80 19",
        "",
        "refused block 0 bit 40 EndsInBlock\n",
        0,
    ),
    (
        "canon 048",
        "30 00 06 80 19 0C 30 00 05 80 19",
        "30 00 06 80 19 0C",
        "refused block 1 bit 32 RunsOut\n",
        0,
    ),
    (
        "canon S",
        "CC 00 04 41",
        "",
        "refused block 0 bit 25 UndefinedSlot\n",
        0,
    ),
    // Want of octets can be cured by more of them, as a row of those done shows; a bad length can't.
    (
        "canon S",
        "CC 00 04 01",
        "",
        "refused block 0 bit 32 RunsOut\n",
        0,
    ),
    (
        "canon 048",
        "30 00 09 01 01 01 04 00 00",
        "",
        "refused block 0 bit 56 BadExplicitLength\n",
        0,
    ),
    // Nothing is read after the block, or the octets of framing, that are refused.
    (
        "canon 048",
        "30 00 05 80 19 30 00 06 80 19 0C",
        "",
        "refused block 0 bit 32 RunsOut\n",
        6,
    ),
    (
        "canon 048",
        "30 00 04 00 30 00 05 80 19 30 00 04 00",
        "30 00 04 00",
        "refused block 1 bit 32 RunsOut\n",
        4,
    ),
    (
        "canon 048",
        "30 00 04 00 30 00 03 30 00 04 00",
        "30 00 04 00",
        "refused block 1 bit 8 BadLen\n",
        4,
    ),
];

#[test]
fn the_first_fault_is_named_at_its_bit(rt: HostRuntime) {
    let alloc = rt.alloc();
    for &(words, input, out, report, left) in &REFUSED {
        let want = (3, out, report, left);
        leaves_octets(&rt, alloc, Run::sound(words, input), want);
    }
}
