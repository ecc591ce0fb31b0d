//! `filter` over inputs, and its refused expressions.

use crate::world::{Filter, Outside, Run, filter_leaves};

const SAC: &str = "30 00 06 80 19 0C";

const SAC_REDUNDANT: &str = "30 00 07 81 00 19 0C";

// Blocks of three categories, of which the second has no file.
const MIXED: &str = "30 00 0C 80 19 0C 80 1A 0C 80 19 0D 3E 00 05 80 FF 22 00 06 80 19 0C";

// The expression, the files, the input and the output. Each input is read to its end.
static DONE: [(&str, &str, &str, &str); 14] = [
    (
        "is 048/010/SAC = 25",
        "048",
        "30 00 0C 80 19 0C 80 1A 0C 80 19 0D",
        "30 00 09 80 19 0C 80 19 0D",
    ),
    ("present 034/010", "A", "3E 00 05 80 FF", ""),
    ("all { }", "A", "3E 00 05 80 FF", ""),
    ("all { }", "048", "", ""),
    (
        "not { is 048/020/TST = 1 }",
        "048",
        "30 00 05 20 A0",
        "30 00 05 20 A0",
    ),
    ("is 048/020/TST != 1", "048", "30 00 05 20 A0", ""),
    ("any { }", "048", SAC_REDUNDANT, ""),
    ("all { }", "048", SAC_REDUNDANT, SAC),
    (
        "is 048/090/FL < 0",
        "048",
        "30 00 08 0C 0E 00 3F FF",
        "30 00 08 0C 0E 00 3F FF",
    ),
    (
        "any { is 048/010/SAC = 25 present 034/010 }",
        "034 048",
        MIXED,
        "30 00 09 80 19 0C 80 19 0D 22 00 06 80 19 0C",
    ),
    ("is 048/010/SAC = 26", "048 034", MIXED, "30 00 06 80 1A 0C"),
    ("present 034/010/SIC", "048 034", MIXED, "22 00 06 80 19 0C"),
    ("present 034/010", "034 048", SAC, ""),
    (
        "present 200/010",
        "N",
        "C8 00 0B 80 02 81 00 11 01 80 22",
        "C8 00 0A 80 02 80 11 01 80 22",
    ),
];

#[test]
fn the_records_that_match(rt: HostRuntime) {
    let alloc = rt.alloc();
    for &(expression, files, input, out) in &DONE {
        let run = Run::sound(Filter { expression, files }, input);
        filter_leaves(&rt, alloc, run, (0, out, "", 0));
    }
}

// The expression, the files, the exit status and the report. Nothing is read or written.
static REFUSED: [(&str, &str, u8, &str); 13] = [
    (
        "is 048/010/SAX = 25",
        "048",
        2,
        "refused filter UnknownPath token 1\n",
    ),
    (
        "is 048/010 = 25",
        "048",
        2,
        "refused filter NotAnElement token 1\n",
    ),
    (
        "is 048/010/SAC 25",
        "048",
        2,
        "refused filter BadToken token 2\n",
    ),
    (
        "present 300/010",
        "048",
        2,
        "refused filter BadToken token 1\n",
    ),
    (
        "is 048/010/SAC = -0",
        "048",
        2,
        "refused filter BadToken token 3\n",
    ),
    (
        "is 048/250/MB = 1",
        "048",
        2,
        "refused filter UnknownPath token 1\n",
    ),
    (
        "all { present",
        "048",
        2,
        "refused filter BadToken token 3\n",
    ),
    ("", "048", 2, "refused filter BadToken token 0\n"),
    (
        "present 048/010",
        "034",
        2,
        "refused filter UnknownPath token 1\n",
    ),
    ("present 048/\"", "048", 2, "refused filter BadByte at 13\n"),
    // The files are judged before the expression, and the words before the files.
    ("present", "Q", 4, "fault file 0\n"),
    ("present", "A 034", 2, "refused file 1 CategoryTwice 034\n"),
    ("all { }", "", 1, "refused usage\n"),
];

#[test]
fn refused_expressions(rt: HostRuntime) {
    let alloc = rt.alloc();
    for &(expression, files, status, report) in &REFUSED {
        let run = Run::sound(Filter { expression, files }, SAC);
        filter_leaves(&rt, alloc, run, (status, "", report, 6));
    }
}

// How the outside fails, the expression and the input; and the status, the output and the report. No piece is written for a
// block without a record that matches, so the first write is that of the first block that has one.
static FAILING: [(Outside, &str, &str, u8, &str, &str); 6] = [
    (Outside::Write(0), "any { }", SAC_REDUNDANT, 0, "", ""),
    (Outside::Room(0), "any { }", SAC_REDUNDANT, 0, "", ""),
    (Outside::Write(0), "all { }", SAC, 4, "", "fault write\n"),
    (
        Outside::Write(0),
        "is 048/010/SAC = 26",
        "30 00 06 80 19 0C 30 00 06 80 1A 0C",
        4,
        "",
        "fault write\n",
    ),
    (
        Outside::Write(1),
        "is 048/010/SAC = 26",
        "30 00 06 80 19 0C 30 00 06 80 1A 0C 3E 00 05 80 FF 30 00 06 80 19 0C",
        0,
        "30 00 06 80 1A 0C",
        "",
    ),
    (
        Outside::Sound,
        "is 048/010/SAC = 25",
        "30 00 06 80 19 0C 30 00 06 80 1A 0C 30 00 05 80 19",
        3,
        "30 00 06 80 19 0C",
        "refused block 2 bit 32 RunsOut\n",
    ),
];

#[test]
fn no_empty_piece_is_written(rt: HostRuntime) {
    let alloc = rt.alloc();
    for &(outside, expression, input, status, out, report) in &FAILING {
        let files = "048";
        let run = Run {
            words: Filter { expression, files },
            input,
            outside,
        };
        filter_leaves(&rt, alloc, run, (status, out, report, 0));
    }
}
