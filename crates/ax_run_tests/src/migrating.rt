//! `migrate`: blocks of one edition in another, the lines of their losses, and what stands where a call fails.

use crate::repeated::{Repeated, by_fx, largest, moved};
use crate::world::{Left, Outside, Run, bytes, leaves, leaves_octets};

const PLOT: &str = "30 00 08 A0 19 0C A1 00";

const PLOT_MIGRATED: &str = "30 00 07 A0 19 0C A0";

const PLOT_TWICE: &str = "30 00 08 A0 19 0C A1 00 30 00 08 A0 19 0C A1 00";

const TARGET_REPORT: &str =
    "30 00 1E FD D0 19 0C 35 00 00 A0 19 00 40 00 0E 00 05 78 3C 65 01 04 2C 60 82 08 20 00 2A";

const FULL: &str = "CA 00 08 80 C0 11 22 33";

const FULL_MIGRATED: &str = "CA 00 07 80 80 22 33";

const FULL_TWICE: &str = "CA 00 08 80 C0 11 22 33 CA 00 08 80 C0 11 22 33";

// How the outside fails, the words and the input; and the status, the output, the report, and how many octets aren't read.
static RUNS: [(Outside, &str, &str, u8, &str, &str, usize); 23] = [
    (
        Outside::Sound,
        "migrate 048 048-P2",
        PLOT,
        0,
        PLOT_MIGRATED,
        "lost block 0 record 0 048/020/part1\n",
        0,
    ),
    (
        Outside::Sound,
        "migrate 048 048",
        TARGET_REPORT,
        0,
        TARGET_REPORT,
        "",
        0,
    ),
    (
        Outside::Sound,
        "migrate H1 H2",
        FULL,
        0,
        FULL_MIGRATED,
        "lost block 0 record 0 202/010/A\n",
        0,
    ),
    (
        Outside::Sound,
        "migrate H1 H3",
        FULL,
        0,
        "CA 00 04 00",
        "lost block 0 record 0 202/010\nlost block 0 record 0 202/010/A\nlost block 0 record 0 202/010/B\n",
        0,
    ),
    (
        Outside::Sound,
        "migrate H1 metres",
        FULL,
        0,
        "CA 00 07 80 40 22 33",
        "lost block 0 record 0 202/010/A\n",
        0,
    ),
    // The first parts of an extended item have other members, and it is lost with all of them.
    (
        Outside::Sound,
        "migrate V1 V2",
        "CF 00 06 80 03 04",
        0,
        "CF 00 04 00",
        "lost block 0 record 0 207/010\nlost block 0 record 0 207/010/part0\nlost block 0 record 0 207/010/part1\n",
        0,
    ),
    (
        Outside::Sound,
        "migrate V1 V1",
        "CF 00 06 80 03 04",
        0,
        "CF 00 06 80 03 04",
        "",
        0,
    ),
    // A file beside itself is of its own category.
    (Outside::Sound, "migrate H1 H1", FULL, 0, FULL, "", 0),
    (
        Outside::Sound,
        "migrate H1 H2",
        "3E 00 05 80 FF CA 00 06 80 80 11",
        0,
        "3E 00 05 80 FF CA 00 05 80 00",
        "lost block 1 record 0 202/010/A\n",
        0,
    ),
    (Outside::Sound, "migrate H1 H2", "", 0, "", "", 0),
    (
        Outside::Sound,
        "migrate A 048",
        PLOT,
        2,
        "",
        "refused editions 034 048\n",
        8,
    ),
    (
        Outside::Sound,
        "migrate 048 A",
        PLOT,
        2,
        "",
        "refused editions 048 034\n",
        8,
    ),
    (
        Outside::Sound,
        "migrate A short",
        PLOT,
        2,
        "",
        "refused file 1 BadToken token 16\n",
        8,
    ),
    (
        Outside::Sound,
        "migrate short Q",
        PLOT,
        2,
        "",
        "refused file 0 BadToken token 16\n",
        8,
    ),
    (
        Outside::Load(1),
        "migrate H1 H2",
        FULL,
        4,
        "",
        "fault file 1\n",
        8,
    ),
    (
        Outside::Sound,
        "migrate H1",
        FULL,
        1,
        "",
        "refused usage\n",
        8,
    ),
    (
        Outside::Sound,
        "migrate H1 H2 H3",
        FULL,
        1,
        "",
        "refused usage\n",
        8,
    ),
    // A block with a fault has no line.
    (
        Outside::Sound,
        "migrate H1 H2",
        "CA 00 06 80 80 11 CA 00 08 80 80 11 80 80",
        3,
        "CA 00 05 80 00",
        "lost block 0 record 0 202/010/A\nrefused block 1 bit 64 RunsOut\n",
        0,
    ),
    // The lines of a block stand before its octets.
    (
        Outside::Write(1),
        "migrate 048 048-P2",
        PLOT_TWICE,
        4,
        PLOT_MIGRATED,
        "lost block 0 record 0 048/020/part1\nlost block 1 record 0 048/020/part1\nfault write\n",
        0,
    ),
    (
        Outside::Write(0),
        "migrate H1 H3",
        FULL_TWICE,
        4,
        "",
        "lost block 0 record 0 202/010\nlost block 0 record 0 202/010/A\nlost block 0 record 0 202/010/B\nfault write\n",
        8,
    ),
    (
        Outside::Report(0),
        "migrate H1 H2",
        FULL_TWICE,
        4,
        "",
        "",
        8,
    ),
    (
        Outside::ReportRoom(40),
        "migrate H1 H2",
        FULL_TWICE,
        4,
        FULL_MIGRATED,
        "lost block 0 record 0 202/010/A\nlost blo",
        0,
    ),
    (
        Outside::ReportRoom(40),
        "migrate H1 H2",
        FULL,
        0,
        FULL_MIGRATED,
        "lost block 0 record 0 202/010/A\n",
        0,
    ),
];

#[test]
fn editions_of_one_category(rt: HostRuntime) {
    let alloc = rt.alloc();
    for &(outside, words, input, status, out, report, left) in &RUNS {
        let run = Run {
            words,
            input,
            outside,
        };
        leaves_octets(&rt, alloc, run, (status, out, report, left));
    }
}

// The call of the report that fails, each taking one octet; and the status, the output, the report, and how many octets
// aren't read. The block whose line is cut isn't written, and no line comes after it.
static CUT_LINES: [(u64, u8, &str, &str, usize); 5] = [
    (0, 4, "", "", 8),
    (31, 4, "", "lost block 0 record 0 202/010/A", 8),
    (32, 4, FULL_MIGRATED, "lost block 0 record 0 202/010/A\n", 0),
    (
        63,
        4,
        FULL_MIGRATED,
        "lost block 0 record 0 202/010/A\nlost block 1 record 0 202/010/A",
        0,
    ),
    (
        64,
        0,
        "CA 00 07 80 80 22 33 CA 00 07 80 80 22 33",
        "lost block 0 record 0 202/010/A\nlost block 1 record 0 202/010/A\n",
        0,
    ),
];

#[test]
fn lines_that_are_cut(rt: HostRuntime) {
    let alloc = rt.alloc();
    for &(call, status, out, report, left) in &CUT_LINES {
        let run = Run {
            words: "migrate H1 H2",
            input: FULL_TWICE,
            outside: Outside::OctetReport(call),
        };
        leaves_octets(&rt, alloc, run, (status, out, report, left));
    }
}

// As many records as come into one block are written as one, and the others after them: all, up to a fault of the next block.
#[test]
fn a_long_migrated_block_is_split(rt: HostRuntime) {
    let alloc = rt.alloc();
    let second = moved(&rt, alloc, [0x80, 0x01], 10_922, &[]);
    let both = moved(&rt, alloc, [0xFF, 0xFF], 21_844, second.as_slice());
    for (outside, after, status, report) in [
        (Outside::Sound, "", 0, ""),
        (Outside::CutReads, "", 0, ""),
        (
            Outside::Sound,
            "C9 00 03",
            3,
            "refused block 1 bit 8 BadLen\n",
        ),
    ] {
        let after = bytes(&rt, alloc, after);
        let input = largest(&rt, alloc, &after);
        let want = Left {
            status,
            out: both.as_slice(),
            report: report.as_bytes(),
            left: 0,
        };
        let run = Run {
            words: "migrate G1 G2",
            input: input.as_slice(),
            outside,
        };
        leaves(&rt, alloc, run, want);
    }
}

// How many records of the largest block are there, and the octets after them; and the report. The input has no more.
static CUT_BLOCKS: [(usize, &str, &str); 6] = [
    (32_765, "80", "refused block 0 bit 524272 EndsInBlock\n"),
    (32_765, "", "refused block 0 bit 524264 EndsInBlock\n"),
    (32_764, "80", "refused block 0 bit 524256 EndsInBlock\n"),
    (32_764, "", "refused block 0 bit 524248 EndsInBlock\n"),
    (0, "80", "refused block 0 bit 32 EndsInBlock\n"),
    (0, "", "refused block 0 bit 24 EndsInBlock\n"),
];

// A block whose input ends in it is refused, and no block of its first records is written.
#[test]
fn a_block_to_be_split_is_cut(rt: HostRuntime) {
    let alloc = rt.alloc();
    for &(records, after, report) in &CUT_BLOCKS {
        let after = bytes(&rt, alloc, after);
        let input = Repeated {
            front: &[0xC9, 0xFF, 0xFF],
            times: records,
            piece: &[0x80, 0x01],
            end: &after,
        };
        let input = input.made(&rt, alloc);
        let want = Left {
            status: 3,
            out: b"",
            report: report.as_bytes(),
            left: 0,
        };
        let run = Run::sound("migrate G1 G2", input.as_slice());
        leaves(&rt, alloc, run, want);
    }
}

// The blocks are written by one call each: where that of the second fails the first stands whole.
#[test]
fn the_second_of_two_blocks_is_cut(rt: HostRuntime) {
    let alloc = rt.alloc();
    let first = moved(&rt, alloc, [0xFF, 0xFF], 21_844, &[]);
    let input = largest(&rt, alloc, &[]);
    let want = Left {
        status: 4,
        out: first.as_slice(),
        report: b"fault write\n",
        left: 0,
    };
    let run = Run {
        words: "migrate G1 G2",
        input: input.as_slice(),
        outside: Outside::Write(1),
    };
    leaves(&rt, alloc, run, want);
}

// All lines come before the first octet of a block that is split.
#[test]
fn a_split_block_with_a_loss(rt: HostRuntime) {
    let alloc = rt.alloc();
    let input = Repeated {
        front: &[0xC9, 0xFF, 0xFE, 0xC0, 0x01, 0x05],
        times: 32_764,
        piece: &[0x80, 0x01],
        end: &[],
    };
    let input = input.made(&rt, alloc);
    let second = moved(&rt, alloc, [0x7F, 0xFE], 10_921, &[]);
    let both = moved(&rt, alloc, [0xFF, 0xFF], 21_844, second.as_slice());
    let whole = Left {
        status: 0,
        out: both.as_slice(),
        report: b"lost block 0 record 0 201/020\n",
        left: 0,
    };
    let run = Run::sound("migrate G3 G2", input.as_slice());
    leaves(&rt, alloc, run, whole);
    let cut = Left {
        status: 4,
        out: b"",
        report: b"",
        left: 0,
    };
    let run = Run {
        words: "migrate G3 G2",
        input: input.as_slice(),
        outside: Outside::Report(0),
    };
    leaves(&rt, alloc, run, cut);
}

// One octet fewer than a block can have, and one record more.
#[test]
fn a_block_of_65534_octets_before_another(rt: HostRuntime) {
    let alloc = rt.alloc();
    let input = Repeated {
        front: &[0xC9, 0xAA, 0xAD, 0x00, 0x00],
        times: 21_844,
        piece: &[0x80, 0x01],
        end: &[],
    };
    let input = input.made(&rt, alloc);
    let second = moved(&rt, alloc, [0x00, 0x06], 1, &[]);
    let both = Repeated {
        front: &[0xC9, 0xFF, 0xFE, 0x00, 0x00],
        times: 21_843,
        piece: &[0x01, 0x80, 0x01],
        end: &second,
    };
    let both = both.made(&rt, alloc);
    let want = Left {
        status: 0,
        out: both.as_slice(),
        report: b"",
        left: 0,
    };
    let run = Run::sound("migrate G1 G2", input.as_slice());
    leaves(&rt, alloc, run, want);
}

// The octets before and after the occurrences of an item, how many there are, and the words; and the output and the report.
static TOO_LONG: [(&str, usize, &str, &str, &str); 3] = [
    (
        "D0 FF FF 80",
        65_530,
        "migrate J1 J2",
        "",
        "refused block 0 MigratedTooLong 65536\n",
    ),
    (
        "D0 00 05 80 00 D0 FF FF 80",
        65_530,
        "migrate J1 J2",
        "D0 00 06 01 80 00",
        "refused block 1 MigratedTooLong 65536\n",
    ),
    (
        "D0 FF FF 80 00 80",
        65_528,
        "migrate J1 J3",
        "",
        "refused block 0 MigratedTooLong 65550\n",
    ),
];

// A record that is too long alone refuses its block, and nothing of it is written, whatever comes before it.
#[test]
fn a_migrated_record_is_too_long(rt: HostRuntime) {
    let alloc = rt.alloc();
    for &(front, times, words, out, report) in &TOO_LONG {
        let front = bytes(&rt, alloc, front);
        let out = bytes(&rt, alloc, out);
        let input = by_fx(&rt, alloc, &front, times);
        let want = Left {
            status: 3,
            out: out.as_slice(),
            report: report.as_bytes(),
            left: 0,
        };
        leaves(&rt, alloc, Run::sound(words, input.as_slice()), want);
    }
}
