//! `salvage`: what is written and reported of a damaged stream, and what stands where a call of the outside fails.

use crate::specs::accepted;
use crate::world::{Left, Outside, Run, bytes, leaves, leaves_octets, text_of};
use ax_check::Catalogue;
use ax_outside::{MemSink, MemSource};
use ax_salvage::{Salvage, SalvageEnd, Tally, salvage};
use ax_tables::Codecs;
use std::alloc::Global;
use std::process::Abort;

// The words, the input, the exit status, the output and the report. Each input is read to its end.
static STREAMS: [(&str, &str, u8, &str, &str); 13] = [
    (
        "salvage 048",
        "30 00 06 80 19 0C 30 00 05 80 19 30 00 04 00",
        0,
        "30 00 06 80 19 0C 30 00 04 00",
        "refused block 1 bit 32 RunsOut\nsalvaged 048 written 2 refused 1\n",
    ),
    // Framing ends behind a damaged body: no counts.
    (
        "salvage 048",
        "30 00 05 80 19 30 00 03",
        3,
        "",
        "refused block 0 bit 32 RunsOut\nrefused block 1 bit 8 BadLen\n",
    ),
    (
        "salvage 048",
        "30 00 05 80 19 30",
        3,
        "",
        "refused block 0 bit 32 RunsOut\nrefused block 1 bit 8 EndsInHeader\n",
    ),
    (
        "salvage 048",
        "30 00 06 80 19 0C 30 00",
        3,
        "30 00 06 80 19 0C",
        "refused block 1 bit 16 EndsInHeader\n",
    ),
    (
        "salvage 048",
        "30 00 06 80 19 0C 30 00 09 80",
        3,
        "30 00 06 80 19 0C",
        "refused block 1 bit 32 EndsInBlock\n",
    ),
    // A redundant presence octet stays, and a block of a category without a file.
    (
        "salvage 048",
        "30 00 07 81 00 19 0C 3E 00 05 80 FF",
        0,
        "30 00 07 81 00 19 0C 3E 00 05 80 FF",
        "salvaged 048 written 1 refused 0\nsalvaged 062 written 1 refused 0\n",
    ),
    // Numbers count every block, the sound ones too.
    (
        "salvage 048",
        "30 00 05 80 19 3E 00 05 80 FF 30 00 05 80 19",
        0,
        "3E 00 05 80 FF",
        "refused block 0 bit 32 RunsOut\nrefused block 2 bit 32 RunsOut\nsalvaged 048 written 0 refused 2\nsalvaged 062 written 1 refused 0\n",
    ),
    (
        "salvage 048",
        "30 00 05 80 19 30 00 05 80 19 30 00 06 80 19 0C",
        0,
        "30 00 06 80 19 0C",
        "refused block 0 bit 32 RunsOut\nrefused block 1 bit 32 RunsOut\nsalvaged 048 written 1 refused 2\n",
    ),
    // The counts ascend, whichever category came first.
    (
        "salvage 048",
        "3E 00 04 00 30 00 06 80 19 0C 3E 00 04 01",
        0,
        "3E 00 04 00 30 00 06 80 19 0C 3E 00 04 01",
        "salvaged 048 written 1 refused 0\nsalvaged 062 written 2 refused 0\n",
    ),
    // What stands behind the fault of a body isn't looked at.
    (
        "salvage 048",
        "30 00 0A 01 01 01 04 00 80 19",
        0,
        "",
        "refused block 0 bit 56 BadExplicitLength\nsalvaged 048 written 0 refused 1\n",
    ),
    (
        "salvage A 048",
        "22 00 05 80 19 30 00 06 80 19 0C",
        0,
        "30 00 06 80 19 0C",
        "refused block 0 bit 32 RunsOut\nsalvaged 034 written 0 refused 1\nsalvaged 048 written 1 refused 0\n",
    ),
    ("salvage 048", "", 0, "", ""),
    (
        "salvage A 034",
        "",
        2,
        "",
        "refused file 1 CategoryTwice 034\n",
    ),
];

#[test]
fn a_damaged_body_costs_its_own_block_alone(rt: HostRuntime) {
    let alloc = rt.alloc();
    for &(words, input, status, out, report) in &STREAMS {
        let want = (status, out, report, 0);
        leaves_octets(&rt, alloc, Run::sound(words, input), want);
    }
}

// Three blocks, of 6, 5 and 4 octets, of which the second is damaged.
const DAMAGED: &str = "30 00 06 80 19 0C 30 00 05 80 19 30 00 04 00";

// The sound ones, of 6 and 4 octets.
const SOUND: &str = "30 00 06 80 19 0C 30 00 04 00";

// The line of the second block, of 31 octets, and that of the counts, of 33.
const LINE: &str = "refused block 1 bit 32 RunsOut\n";

const LINES: &str = "refused block 1 bit 32 RunsOut\nsalvaged 048 written 2 refused 1\n";

/// What is left of the three blocks where a call fails: so many octets of the sound ones, a report, and so many octets not read.
#[derive(Clone, Copy)]
struct Standing<'r> {
    written: usize,
    report: &'r [u8],
    left: usize,
}

// Asserts what is left of the three blocks.
fn stands(rt: &impl Abort, alloc: Global, outside: Outside, want: Standing<'_>) {
    let input = bytes(rt, alloc, DAMAGED);
    let run = Run {
        words: "salvage 048",
        input: input.as_slice(),
        outside,
    };
    let out = bytes(rt, alloc, SOUND);
    let want = Left {
        status: 4,
        out: &out[..want.written.min(out.len())],
        report: want.report,
        left: want.left,
    };
    leaves(rt, alloc, run, want);
}

// The first octets of the report where a read or a write failed, and the line of that.
fn report_of(rt: &impl Abort, alloc: Global, line: &str, fault: &str) -> String {
    format!(in alloc; "{line}{fault}").expect(rt, "memory")
}

#[test]
fn each_read_fails_in_turn(rt: HostRuntime) {
    let alloc = rt.alloc();
    for call in 0..16usize {
        let written = if call < 6 {
            0
        } else if call < 15 {
            6
        } else {
            10
        };
        let line = if call < 11 { "" } else { LINE };
        let report = report_of(&rt, alloc, line, "fault read\n");
        let want = Standing {
            written,
            report: report.as_bytes(),
            left: 15 - call,
        };
        stands(&rt, alloc, Outside::OctetRead(call as u64), want);
    }
}

// Only the octets of the third block come after the line of the second.
#[test]
fn each_write_fails_in_turn(rt: HostRuntime) {
    let alloc = rt.alloc();
    for call in 0..10usize {
        let (line, left) = if call < 6 { ("", 9) } else { (LINE, 0) };
        let report = report_of(&rt, alloc, line, "fault write\n");
        let want = Standing {
            written: call,
            report: report.as_bytes(),
            left,
        };
        stands(&rt, alloc, Outside::OctetWrite(call as u64), want);
    }
}

// A failed line is said by no other.
#[test]
fn each_octet_of_the_lines_fails_in_turn(rt: HostRuntime) {
    let alloc = rt.alloc();
    for call in 0..64usize {
        let (written, left) = if call < 31 { (6, 4) } else { (10, 0) };
        let want = Standing {
            written,
            report: &LINES.as_bytes()[..call.min(LINES.len())],
            left,
        };
        stands(&rt, alloc, Outside::OctetReport(call as u64), want);
    }
}

// Asserts how a salvage of the three blocks ends, and the tallies of two categories.
fn tallies_are(rt: &impl Abort, got: (SalvageEnd, Tally, Tally)) {
    let came = Tally {
        written: 2,
        refused: 1,
    };
    let none = Tally {
        written: 0,
        refused: 0,
    };
    assert_eq!(rt; got, (SalvageEnd::Done { blocks: 3 }, came, none));
}

#[test]
fn tallies_of_a_work(rt: HostRuntime) {
    let alloc = rt.alloc();
    let mut catalogue = Catalogue::new(alloc);
    let file = accepted(&rt, alloc, text_of(&rt, "048"));
    catalogue.add(file).expect(&rt, "a category");
    let codecs = Codecs::compile(alloc, &catalogue).expect(&rt, "memory");
    let mut work = Salvage::new(alloc, &catalogue, &codecs, 100).expect(&rt, "memory");
    let mut source = MemSource::new(bytes(&rt, alloc, DAMAGED), Vec::new(alloc), Vec::new(alloc));
    let mut out = MemSink::new(alloc, 100, 100, Vec::new(alloc)).expect(&rt, "memory");
    let mut report = MemSink::new(alloc, 100, 100, Vec::new(alloc)).expect(&rt, "memory");
    let end = salvage(&mut work, &mut source, &mut out, &mut report);
    tallies_are(&rt, (end, work.tally(48), work.tally(62)));
}
