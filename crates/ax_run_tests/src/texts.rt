//! `text` and `show` over inputs without fault and with one.

use crate::world::{Outside, Run, leaves_text};

// The words, the input, the exit status, the output and the report. Each input is read to its end.
static LINES: [(&str, &str, u8, &str, &str); 10] = [
    ("text A", "", 0, "", ""),
    (
        "text 048",
        "30 00 06 20 A1 00",
        0,
        "block 048 { record { 020 { part { TYP 5 SIM 0 RDP 0 SPI 0 RAB 0 } part { TST 0 spare 0 ME 0 MI 0 FOEFRI 0 } } } }\n",
        "",
    ),
    (
        "text 048",
        "30 00 08 01 01 40 0B 0C",
        0,
        "block 048 { record { 030 { 5 6 } } }\n",
        "",
    ),
    (
        "text 048",
        "30 00 0A 01 01 01 04 03 AA BB",
        0,
        "block 048 { record { SP \"aabb\" } }\n",
        "",
    ),
    ("text A", "3E 00 05 80 FF", 0, "opaque 062 \"80ff\"\n", ""),
    (
        "text A 048",
        "30 00 08 01 01 40 0B 0C 3E 00 05 80 FF 30 00 04 00",
        0,
        "block 048 { record { 030 { 5 6 } } }\nopaque 062 \"80ff\"\nblock 048 { record { } }\n",
        "",
    ),
    (
        "text A 048",
        "3E 00 05 80 FF 30 00 05 80 19",
        3,
        "opaque 062 \"80ff\"\n",
        "refused block 1 bit 32 RunsOut\n",
    ),
    (
        "show A",
        "22 00 0A E0 19 0C 01 00 00 80 3E 00 05 80 FF",
        0,
        "block 0 category 034 octets 10 records 1\nrecord 0\n034/010/SAC = 25\n034/010/SIC = 12\n034/000 = 1 \"North marker message\"\n034/030 = 128 1/1 \"s\"\nblock 1 category 062 octets 5 opaque \"80ff\"\n",
        "",
    ),
    (
        "show A",
        "3E 00 05 80 FF",
        0,
        "block 0 category 062 octets 5 opaque \"80ff\"\n",
        "",
    ),
    (
        "show 048",
        "30 00 04 00 30 00 05 80 19",
        3,
        "block 0 category 048 octets 4 records 1\nrecord 0\n",
        "refused block 1 bit 32 RunsOut\n",
    ),
];

#[test]
fn lines_of_each_block(rt: HostRuntime) {
    let alloc = rt.alloc();
    for &(words, input, status, out, report) in &LINES {
        let want = (status, out, report, 0);
        leaves_text(&rt, alloc, Run::sound(words, input), want);
    }
}

// A line is one piece: of two blocks' lines a second failing write leaves the first.
#[test]
fn a_line_is_one_piece(rt: HostRuntime) {
    let run = Run {
        words: "text A",
        input: "3E 00 05 80 FF 3E 00 04 01",
        outside: Outside::Write(1),
    };
    let want = (4, "opaque 062 \"80ff\"\n", "fault write\n", 0);
    leaves_text(&rt, rt.alloc(), run, want);
}
