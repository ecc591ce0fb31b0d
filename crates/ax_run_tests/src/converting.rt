//! `convert`: quantities of one edition in another, the lines of what is missed, and what stands where a call fails.

use crate::repeated::{Repeated, by_fx};
use crate::world::{Left, Outside, Run, bytes, leaves, leaves_octets};

const ONE: &str = "D1 00 06 80 01 00";

// A quantity that file Y3 has no number for, in each of two blocks, and the line of the first one.
const MISSED_TWICE: &str = "D1 00 06 80 01 01 D1 00 06 80 01 01";

const MISSED: &str = "unconverted block 0 record 0 209/010\n";

// The words and the input; and the output and the report of a run that is done. Each input is read to its end. A number n becomes
// the m for which m times the new scale is n times the old one.
static CONVERTED: [(&str, &str, &str, &str); 26] = [
    // 256/128 is 512/256.
    ("convert Y1 Y2", ONE, "D1 00 07 80 00 02 00", ""),
    // 256/128 is 128/64; 257/128 is no 64th, and 512/128 is 256/64, which 8 bits don't have.
    (
        "convert Y1 Y3",
        "D1 00 0C 80 01 00 80 01 01 80 02 00",
        "D1 00 07 80 80 00 00",
        "unconverted block 0 record 1 209/010\nunconverted block 0 record 2 209/010\n",
    ),
    // The largest number of 8 bits.
    ("convert Y1 Y3", "D1 00 06 80 01 FE", "D1 00 05 80 FF", ""),
    // Another unit.
    (
        "convert Y1 Y4",
        ONE,
        "D1 00 04 00",
        "lost block 0 record 0 209/010\n",
    ),
    // A file beside itself; and no input.
    ("convert Y1 Y1", ONE, ONE, ""),
    ("convert Y1 Y3", "", "", ""),
    // A block of another category is counted, and passes.
    (
        "convert Y1 Y3",
        "3E 00 05 80 FF D1 00 06 80 01 01",
        "3E 00 05 80 FF D1 00 04 00",
        "unconverted block 1 record 0 209/010\n",
    ),
    // By its sign a number is negative, which has a number without a sign under no scale: 0xFF is -1, and -1 is -2/2.
    (
        "convert signed-8 unsigned-16",
        "D1 00 07 80 FF 80 05",
        "D1 00 07 00 80 00 05",
        MISSED,
    ),
    (
        "convert signed-8 signed-16",
        "D1 00 05 80 FF",
        "D1 00 06 80 FF FE",
        "",
    ),
    (
        "convert signed-16 signed-8",
        "D1 00 0C 80 FF 00 80 FE FE 80 FF FF",
        "D1 00 07 80 80 00 00",
        "unconverted block 0 record 1 209/010\nunconverted block 0 record 2 209/010\n",
    ),
    // Of a group either each number is converted or none, and there is one line.
    (
        "convert pair-1 pair-2",
        "D1 00 0F C0 04 03 11 C0 04 06 11 C0 03 05 11",
        "D1 00 0B 40 11 C0 02 03 11 40 11",
        "unconverted block 0 record 0 209/010\nunconverted block 0 record 2 209/010\n",
    ),
    // So it is of the occurrences of an item.
    (
        "convert list-1 list-2",
        "D1 00 09 80 02 04 11 03 22",
        "D1 00 04 00",
        MISSED,
    ),
    (
        "convert list-1 list-2",
        "D1 00 09 80 02 04 11 06 22",
        "D1 00 09 80 02 02 11 03 22",
        "",
    ),
    // 5 and 127 are 10/2 and 254/2, with FX after the first.
    (
        "convert fx-7 fx-15",
        "D1 00 06 80 0B FE",
        "D1 00 08 80 00 15 01 FC",
        "",
    ),
    // A table with other entries is the same, and one of another width is another.
    (
        "convert table-1 table-2",
        "D1 00 05 80 02",
        "D1 00 05 80 02",
        "",
    ),
    (
        "convert table-1 table-16",
        "D1 00 05 80 02",
        "D1 00 04 00",
        "lost block 0 record 0 209/010\n",
    ),
    // A part of an extended item is kept or lost, never converted.
    (
        "convert part-1 part-2",
        "D1 00 05 80 0A",
        "D1 00 04 00",
        "lost block 0 record 0 209/010\nlost block 0 record 0 209/010/part0\n",
    ),
    // Compounds as occurrences, the first without the second subitem.
    (
        "convert inner-1 inner-2",
        "D1 00 0A 80 02 80 04 C0 06 11",
        "D1 00 0A 80 02 80 02 C0 03 11",
        "",
    ),
    // Each subitem of a compound is converted or missed by itself, and goes to its slot: 6/2 is 3, 7/2 is no whole number, and
    // 129/4 is 258/8.
    (
        "convert order-1 order-2",
        "D1 00 07 80 C0 06 81",
        "D1 00 08 80 C0 01 02 03",
        "",
    ),
    (
        "convert order-1 order-2",
        "D1 00 07 80 C0 07 81",
        "D1 00 07 80 80 01 02",
        "unconverted block 0 record 0 209/010/A\n",
    ),
    // The lines go by the field reference numbers of the old edition: those of items with a number that isn't there between
    // those of items that are laid out otherwise.
    (
        "convert four-1 four-2",
        "D1 00 0D F0 03 11 05 04 F0 04 11 05 04",
        "D1 00 06 00 10 02",
        "unconverted block 0 record 0 209/010\nlost block 0 record 0 209/020\nunconverted block 0 record 0 209/030\nlost block 0 record 0 209/040\nlost block 0 record 1 209/020\nunconverted block 0 record 1 209/030\nlost block 0 record 1 209/040\n",
    ),
    // Two items that are converted, in the order of the new edition.
    (
        "convert four-1 four-2",
        "D1 00 06 A0 04 06",
        "D1 00 06 50 03 02",
        "",
    ),
    // A block without such an item before one with it, and a record.
    (
        "convert four-1 four-2",
        "D1 00 05 40 11 D1 00 05 80 04",
        "D1 00 04 00 D1 00 05 10 02",
        "lost block 0 record 0 209/020\n",
    ),
    (
        "convert four-1 four-2",
        "D1 00 07 40 11 80 04",
        "D1 00 06 00 10 02",
        "lost block 0 record 0 209/020\n",
    ),
    // Two editions without a quantity: a subitem is lost, and a block of another category passes.
    (
        "convert H1 H2",
        "CA 00 08 80 C0 11 22 33",
        "CA 00 07 80 80 22 33",
        "lost block 0 record 0 202/010/A\n",
    ),
    (
        "convert H1 H2",
        "3E 00 05 80 FF CA 00 06 80 80 11",
        "3E 00 05 80 FF CA 00 05 80 00",
        "lost block 1 record 0 202/010/A\n",
    ),
];

#[test]
fn quantities_are_converted(rt: HostRuntime) {
    let alloc = rt.alloc();
    for &(words, input, out, report) in &CONVERTED {
        let want = (0, out, report, 0);
        for outside in [Outside::Sound, Outside::OctetReads] {
            let run = Run {
                words,
                input,
                outside,
            };
            leaves_octets(&rt, alloc, run, want);
        }
    }
}

// How the outside fails, the words and the input; and the status, the output, the report, and how many octets aren't read.
static RUNS: [(Outside, &str, &str, u8, &str, &str, usize); 13] = [
    (
        Outside::Sound,
        "convert Y1",
        ONE,
        1,
        "",
        "refused usage\n",
        6,
    ),
    (
        Outside::Sound,
        "convert Y1 Y2 Y3",
        ONE,
        1,
        "",
        "refused usage\n",
        6,
    ),
    (
        Outside::Sound,
        "convert Y1 H1",
        ONE,
        2,
        "",
        "refused editions 209 202\n",
        6,
    ),
    (
        Outside::Sound,
        "convert H1 Y1",
        ONE,
        2,
        "",
        "refused editions 202 209\n",
        6,
    ),
    (
        Outside::Sound,
        "convert Y1 short",
        ONE,
        2,
        "",
        "refused file 1 BadToken token 16\n",
        6,
    ),
    (
        Outside::Load(1),
        "convert Y1 Y2",
        ONE,
        4,
        "",
        "fault file 1\n",
        6,
    ),
    // The input is read under the old edition, up to its first fault.
    (
        Outside::Sound,
        "convert Y1 Y2",
        "D1 00 06 80 01 00 D1 00 05 80 01",
        3,
        "D1 00 07 80 00 02 00",
        "refused block 1 bit 32 RunsOut\n",
        0,
    ),
    // A block with a fault has no line.
    (
        Outside::Sound,
        "convert Y1 Y3",
        "D1 00 06 80 01 01 D1 00 08 80 01 01 80 01",
        3,
        "D1 00 04 00",
        "unconverted block 0 record 0 209/010\nrefused block 1 bit 56 RunsOut\n",
        0,
    ),
    // The lines of a block stand before its octets.
    (
        Outside::Write(0),
        "convert Y1 Y3",
        MISSED_TWICE,
        4,
        "",
        "unconverted block 0 record 0 209/010\nfault write\n",
        6,
    ),
    (
        Outside::OctetWrite(3),
        "convert Y1 Y3",
        MISSED_TWICE,
        4,
        "D1 00 04",
        "unconverted block 0 record 0 209/010\nfault write\n",
        6,
    ),
    (
        Outside::Write(1),
        "convert Y1 Y3",
        MISSED_TWICE,
        4,
        "D1 00 04 00",
        "unconverted block 0 record 0 209/010\nunconverted block 1 record 0 209/010\nfault write\n",
        0,
    ),
    (
        Outside::Report(0),
        "convert Y1 Y3",
        MISSED_TWICE,
        4,
        "",
        "",
        6,
    ),
    (
        Outside::ReportRoom(49),
        "convert Y1 Y3",
        MISSED_TWICE,
        4,
        "D1 00 04 00",
        "unconverted block 0 record 0 209/010\nunconverted ",
        0,
    ),
];

#[test]
fn runs_that_are_refused_or_fail(rt: HostRuntime) {
    let alloc = rt.alloc();
    for &(outside, words, input, status, out, report, left) in &RUNS {
        let run = Run {
            words,
            input,
            outside,
        };
        leaves_octets(&rt, alloc, run, (status, out, report, left));
    }
}

// Each call of the report takes one octet and another one fails: the block whose line is cut isn't written.
#[test]
fn each_octet_of_a_missed_line_fails_in_turn(rt: HostRuntime) {
    let alloc = rt.alloc();
    let input = bytes(&rt, alloc, MISSED_TWICE);
    for call in 0..MISSED.len() {
        let want = Left {
            status: 4,
            out: b"",
            report: &MISSED.as_bytes()[..call.min(MISSED.len())],
            left: 6,
        };
        let run = Run {
            words: "convert Y1 Y3",
            input: input.as_slice(),
            outside: Outside::OctetReport(call as u64),
        };
        leaves(&rt, alloc, run, want);
    }
}

// The octets before the occurrences of item 020 and how many there are before the last one, each of the number 0; and the
// status, the octets before the converted occurrences, how many there are before the last one, the last one, and the report. An
// occurrence has one octet in the old edition and two in the new one.
static LONG: [(&str, usize, u8, &str, usize, &str, &str); 4] = [
    // A record that alone gives a block of 65,536 octets, behind one with a miss: no line, and nothing of the block.
    (
        "D1 80 04 80 03 40",
        32_765,
        3,
        "",
        0,
        "",
        "refused block 0 MigratedTooLong 65536\n",
    ),
    // So behind a block.
    (
        "D1 00 05 80 04 D1 80 04 80 03 40",
        32_765,
        3,
        "D1 00 05 80 02",
        0,
        "",
        "refused block 1 MigratedTooLong 65536\n",
    ),
    // An occurrence less, and the records come to 65,535 octets.
    (
        "D1 80 03 80 03 40",
        32_764,
        0,
        "D1 FF FF 00 40",
        32_764,
        "00 00",
        MISSED,
    ),
    // An octet more, and they are written as two blocks.
    (
        "D1 80 03 80 04 40",
        32_764,
        0,
        "D1 00 05 80 02 D1 FF FE 40",
        32_764,
        "00 00",
        "",
    ),
];

#[test]
fn long_records_are_converted_or_refused(rt: HostRuntime) {
    let alloc = rt.alloc();
    for &(front, times, status, made, count, last, report) in &LONG {
        let front = bytes(&rt, alloc, front);
        let input = by_fx(&rt, alloc, &front, times);
        let made = bytes(&rt, alloc, made);
        let last = bytes(&rt, alloc, last);
        let out = Repeated {
            front: &made,
            times: count,
            piece: &[0x00, 0x01],
            end: &last,
        };
        let out = out.made(&rt, alloc);
        let want = Left {
            status,
            out: &out,
            report: report.as_bytes(),
            left: 0,
        };
        let run = Run::sound("convert long-1 long-2", input.as_slice());
        leaves(&rt, alloc, run, want);
    }
}

// A record without a quantity, of 65,532 octets, which gets a presence field of two octets for one.
#[test]
fn a_long_record_without_a_quantity_is_refused(rt: HostRuntime) {
    let alloc = rt.alloc();
    let input = by_fx(&rt, alloc, &[0xD0, 0xFF, 0xFF, 0x80], 65_530);
    let want = Left {
        status: 3,
        out: b"",
        report: b"refused block 0 MigratedTooLong 65536\n",
        left: 0,
    };
    let run = Run::sound("convert J1 J2", input.as_slice());
    leaves(&rt, alloc, run, want);
}
