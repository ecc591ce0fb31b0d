//! `build` over lines that are blocks' texts, and over lines that are not.

use crate::repeated::Repeated;
use crate::world::{Left, Outside, Run, bytes, leaves};
use std::alloc::Global;
use std::process::Abort;

// The words, the lines, the exit status, the output and the report. Each input is read to its end.
static LINES: [(&str, &str, u8, &str, &str); 28] = [
    ("build 048", "", 0, "", ""),
    (
        "build 048",
        "block 048 { record { 010 { SAC 25 SIC 12 } } }",
        0,
        "30 00 06 80 19 0C",
        "",
    ),
    (
        "build 048",
        "block  048 { record { 010 { SAC 25 SIC 12 } } } # spaced by hand",
        0,
        "30 00 06 80 19 0C",
        "",
    ),
    (
        "build 048",
        "block 048 { record { 010 { SAC 25 SIC 12 } } }\n\tblock 048{record{010{SAC 26 SIC 12}}}\n",
        0,
        "30 00 06 80 19 0C 30 00 06 80 1A 0C",
        "",
    ),
    (
        "build 048",
        "block 048 { record { 010 { SAC 256 SIC 12 } } }",
        3,
        "",
        "refused line 0 BadToken token 8\n",
    ),
    (
        "build 048",
        "\nblock 048 { record { 010 { SAC 256 SIC 12 } } }\n",
        3,
        "",
        "refused line 1 BadToken token 8\n",
    ),
    (
        "build 048",
        "block 048 { record { 010 { SAC 025 SIC 12 } } }\n",
        3,
        "",
        "refused line 0 BadToken token 8\n",
    ),
    (
        "build 048",
        "block 048 { record { 010 { SIC 12 SAC 25 } } }",
        3,
        "",
        "refused line 0 BadToken token 7\n",
    ),
    (
        "build 048",
        "block 048 { record { 140 1 010 { SAC 1 SIC 1 } } }",
        3,
        "",
        "refused line 0 BadToken token 7\n",
    ),
    (
        "build 048",
        "block 048 { record { 140 1 140 1 } }",
        3,
        "",
        "refused line 0 BadToken token 7\n",
    ),
    (
        "build 048",
        "block 048 { record { SP \"AA\" } }",
        3,
        "",
        "refused line 0 BadToken token 6\n",
    ),
    (
        "build 048",
        "block 048 { record { } } x",
        3,
        "",
        "refused line 0 BadToken token 7\n",
    ),
    (
        "build 048",
        "block 048 { }",
        3,
        "",
        "refused line 0 BadToken token 3\n",
    ),
    (
        "build 048",
        "block 048 { record {",
        3,
        "",
        "refused line 0 BadToken token 5\n",
    ),
    (
        "build 048",
        "block 048 { record { 161 { spare 16 TRN 42 } } }",
        3,
        "",
        "refused line 0 BadToken token 8\n",
    ),
    (
        "build 048",
        "block 048 { record { 161 { TRN 42 } } }",
        3,
        "",
        "refused line 0 BadToken token 7\n",
    ),
    // What `text` writes for these octets.
    (
        "build 048",
        "block 048 { record { 010 { SAC 25 SIC 12 } } record { 010 { SAC 26 SIC 12 } } record { 010 { SAC 25 SIC 13 } } }\n",
        0,
        "30 00 0C 80 19 0C 80 1A 0C 80 19 0D",
        "",
    ),
    ("build A", "opaque 062 \"80ff\"", 0, "3E 00 05 80 FF", ""),
    (
        "build A",
        "opaque 034 \"00\"",
        3,
        "",
        "refused line 0 BadToken token 1\n",
    ),
    (
        "build A",
        "block 062 { record { } }",
        3,
        "",
        "refused line 0 BadToken token 1\n",
    ),
    (
        "build A",
        "opaque 062 \"\"",
        3,
        "",
        "refused line 0 BadToken token 2\n",
    ),
    (
        "build A",
        "opaque 062 \"8G\"",
        3,
        "",
        "refused line 0 BadToken token 2\n",
    ),
    // Comments and carriage returns are no tokens. Neither their lines nor empty ones give a block, and they are counted.
    (
        "build A 048",
        "# a comment\r\n\r\nblock 048 { record { } } # another\r\n\nopaque 062 \"01\"\r\n",
        0,
        "30 00 04 00 3E 00 04 01",
        "",
    ),
    (
        "build A 048",
        "# a comment\r\n\r\nblock 048 { record { } }\r\n\nopaque 048 \"01\"\r\n",
        3,
        "30 00 04 00",
        "refused line 4 BadToken token 1\n",
    ),
    // An octet that no token begins with, in a line without a token, and a string that the line's end leaves open.
    (
        "build A",
        "opaque 062 \"01\"\n \u{7f}",
        3,
        "3E 00 04 01",
        "refused line 1 BadByte at 1\n",
    ),
    (
        "build A",
        "opaque 062 \"01\nopaque 062 \"01\"",
        3,
        "",
        "refused line 0 BadByte at 14\n",
    ),
    // Twenty braces may stand open, however wrong the text is, and one more may not.
    (
        "build A",
        "{{{{{{{{{{{{{{{{{{{{",
        3,
        "",
        "refused line 0 BadToken token 0\n",
    ),
    (
        "build A",
        "opaque 062 \"01\"\n{{{{{{{{{{{{{{{{{{{{{",
        3,
        "3E 00 04 01",
        "refused line 1 TooDeep token 20\n",
    ),
];

/// Builds lines, and asserts the status, the output in hexadecimal, the report and what is left of the input.
fn builds(rt: &impl Abort, alloc: Global, run: Run<&str, &[u8]>, want: (u8, &str, &str, usize)) {
    let (status, out, report, left) = want;
    let out = bytes(rt, alloc, out);
    let want = Left {
        status,
        out: &out,
        report: report.as_bytes(),
        left,
    };
    leaves(rt, alloc, run, want);
}

#[test]
fn blocks_of_lines(rt: HostRuntime) {
    let alloc = rt.alloc();
    for &(words, lines, status, out, report) in &LINES {
        let want = (status, out, report, 0);
        builds(&rt, alloc, Run::sound(words, lines.as_bytes()), want);
    }
}

// The lines, the output in hexadecimal and the report.
static LONG: [(Repeated<'_>, &str, &str); 4] = [
    (
        Repeated {
            front: b"block 048 {",
            times: 65_533,
            piece: b" record { }",
            end: b" }",
        },
        "",
        "refused line 0 TooLong 65536\n",
    ),
    (
        Repeated {
            front: b"opaque 062 \"",
            times: 65_533,
            piece: b"00",
            end: b"\"",
        },
        "",
        "refused line 0 TooLong 65536\n",
    ),
    (
        Repeated {
            front: b"",
            times: 16_777_217,
            piece: b" ",
            end: b"",
        },
        "",
        "refused line 0 LineTooLong\n",
    ),
    (
        Repeated {
            front: b"block 048 { record { } }\n",
            times: 16_777_217,
            piece: b" ",
            end: b"",
        },
        "30 00 04 00",
        "refused line 1 LineTooLong\n",
    ),
];

#[test]
fn blocks_and_lines_that_are_too_long(rt: HostRuntime) {
    let alloc = rt.alloc();
    for &(lines, out, report) in &LONG {
        let lines = lines.made(&rt, alloc);
        let run = Run::sound("build 048", lines.as_slice());
        builds(&rt, alloc, run, (3, out, report, 0));
    }
}

// The most octets of a line, its line feed aside.
const LONGEST_LINE: usize = 16_777_216;

#[test]
fn a_line_of_the_most_octets_is_built(rt: HostRuntime) {
    let front = b"block 048 { record { } }";
    let line = Repeated {
        front,
        times: LONGEST_LINE - front.len(),
        piece: b" ",
        end: b"\n",
    };
    let line = line.made(&rt, rt.alloc());
    let run = Run::sound("build 048", line.as_slice());
    builds(&rt, rt.alloc(), run, (0, "30 00 04 00", "", 0));
}

const THREE_LINES: &str = "opaque 062 \"80ff\"\n\nopaque 063 \"00\"\n";

// What is written where so many octets of these lines came, one a call, and the next read failed: the blocks of the lines
// whose line feed came.
static WRITTEN: [(usize, usize, &str); 3] = [
    (0, 18, ""),
    (18, 35, "3E 00 05 80 FF"),
    (35, 36, "3E 00 05 80 FF 3F 00 04 00"),
];

#[test]
fn a_failing_read_keeps_the_lines_before_it(rt: HostRuntime) {
    let alloc = rt.alloc();
    let input = THREE_LINES.as_bytes();
    for &(from, to, out) in &WRITTEN {
        for call in from..to {
            let want = (4, out, "fault read\n", 35 - call);
            let run = Run {
                words: "build A",
                input,
                outside: Outside::OctetRead(call as u64),
            };
            builds(&rt, alloc, run, want);
        }
    }
}

// Each block is one piece: of two blocks a second failing write leaves the first.
#[test]
fn a_block_is_one_piece(rt: HostRuntime) {
    let run = Run {
        words: "build A",
        input: THREE_LINES.as_bytes(),
        outside: Outside::Write(1),
    };
    let want = (4, "3E 00 05 80 FF", "fault write\n", 0);
    builds(&rt, rt.alloc(), run, want);
}
