//! Each call of the outside refused in turn, by its number: what stands then.

use crate::world::{Left, Outside, Run, bytes, leaves};
use std::alloc::Global;
use std::process::Abort;

/// The calls of which one after another fails. Reads and writes go octet by octet.
#[derive(Clone, Copy)]
enum Calls {
    Loads,
    Reads,
    Writes,
    /// Writes to the report.
    Lines,
}

/// Octets in hexadecimal, or as they are.
#[derive(Clone, Copy)]
enum Octets {
    Hex(&'static str),
    Text(&'static str),
}

impl Octets {
    fn made(self, rt: &impl Abort, alloc: Global) -> Vec<u8> {
        match self {
            Octets::Hex(digits) => bytes(rt, alloc, digits),
            Octets::Text(text) => text.as_bytes().to_vec(alloc).expect(rt, "memory"),
        }
    }
}

/// From the failing call of that number on: how many octets of the whole output stand (of failing writes: as many as calls went
/// well), and how many of the input aren't read (of failing reads: less those of the reads before).
type Step = (u64, usize, usize);

/// A run, with all that it writes and reports and leaves where no call fails; the number of the calls that it makes; and what
/// stands where one of them fails.
#[derive(Clone, Copy)]
struct Row {
    words: &'static str,
    input: Octets,
    out: Octets,
    report: &'static str,
    left: usize,
    calls: Calls,
    count: u64,
    steps: [Step; 3],
}

/// A step that no call reaches.
const NONE: Step = (u64::MAX, 0, 0);

const NORTH_TWICE: Octets = Octets::Hex(
    "22 00 0A E0 19 0C 01 00 00 80 22 00 0A E0 19 0C 01 00 00 80",
);

// Two blocks of a category without a file, 9 octets.
const OPAQUE: Octets = Octets::Hex("3E 00 05 80 FF 3E 00 04 01");

// Their lines, of 18 and 16 octets, and their listings, of 44 and 42.
const OPAQUE_TEXT: Octets = Octets::Text("opaque 062 \"80ff\"\nopaque 062 \"01\"\n");

const OPAQUE_SHOWN: Octets = Octets::Text(
    "block 0 category 062 octets 5 opaque \"80ff\"\nblock 1 category 062 octets 4 opaque \"01\"\n",
);

// Two blocks' texts and an empty line between them, 35 octets.
const THREE_LINES: Octets = Octets::Text("opaque 062 \"80ff\"\n\nopaque 062 \"01\"\n");

const FULL_TWICE: Octets = Octets::Hex("CA 00 08 80 C0 11 22 33 CA 00 08 80 C0 11 22 33");

const MIGRATED_TWICE: Octets = Octets::Hex("CA 00 07 80 80 22 33 CA 00 07 80 80 22 33");

// What `check` writes of file E: its line, of 37 octets, and its text, of 139.
const CHECKED: Octets = Octets::Text(
    "accepted 034 \"034-E\" items 3 slots 3\ncategory 034 edition \"034-E\" items { item 010 \"\" element 16 raw item 000 \"\" element 8 raw item 030 \"\" element 24 raw } uap { 010 000 030 }\n",
);

const NORTH_READS: [Step; 3] = [(0, 0, 20), (10, 10, 20), (20, 20, 20)];

const NORTH_WRITES: [Step; 3] = [(0, 0, 10), (10, 0, 0), NONE];

static ROWS: [Row; 14] = [
    Row {
        words: "canon A",
        input: NORTH_TWICE,
        out: NORTH_TWICE,
        report: "",
        left: 0,
        calls: Calls::Reads,
        count: 21,
        steps: NORTH_READS,
    },
    Row {
        words: "canon A",
        input: NORTH_TWICE,
        out: NORTH_TWICE,
        report: "",
        left: 0,
        calls: Calls::Writes,
        count: 20,
        steps: NORTH_WRITES,
    },
    Row {
        words: "canon A 048",
        input: Octets::Hex(""),
        out: Octets::Hex(""),
        report: "",
        left: 0,
        calls: Calls::Loads,
        count: 2,
        steps: [(0, 0, 0), NONE, NONE],
    },
    Row {
        words: "migrate H1 H2",
        input: FULL_TWICE,
        out: MIGRATED_TWICE,
        report: "lost block 0 record 0 202/010/A\nlost block 1 record 0 202/010/A\n",
        left: 0,
        calls: Calls::Lines,
        count: 64,
        steps: [(0, 0, 8), (32, 7, 0), NONE],
    },
    // The blocks before a failed read stand, with their lines.
    Row {
        words: "migrate 048 048",
        input: Octets::Hex("30 00 04 00 30 00 05 20 A0"),
        out: Octets::Hex("30 00 04 00 30 00 05 20 A0"),
        report: "",
        left: 0,
        calls: Calls::Reads,
        count: 10,
        steps: [(0, 0, 9), (4, 4, 9), (9, 9, 9)],
    },
    Row {
        words: "filter all{} A",
        input: NORTH_TWICE,
        out: NORTH_TWICE,
        report: "",
        left: 0,
        calls: Calls::Reads,
        count: 21,
        steps: NORTH_READS,
    },
    Row {
        words: "filter all{} A",
        input: NORTH_TWICE,
        out: NORTH_TWICE,
        report: "",
        left: 0,
        calls: Calls::Writes,
        count: 20,
        steps: NORTH_WRITES,
    },
    Row {
        words: "text A",
        input: OPAQUE,
        out: OPAQUE_TEXT,
        report: "",
        left: 0,
        calls: Calls::Reads,
        count: 10,
        steps: [(0, 0, 9), (5, 18, 9), (9, 34, 9)],
    },
    Row {
        words: "text A",
        input: OPAQUE,
        out: OPAQUE_TEXT,
        report: "",
        left: 0,
        calls: Calls::Writes,
        count: 34,
        steps: [(0, 0, 4), (18, 0, 0), NONE],
    },
    Row {
        words: "show A",
        input: OPAQUE,
        out: OPAQUE_SHOWN,
        report: "",
        left: 0,
        calls: Calls::Reads,
        count: 10,
        steps: [(0, 0, 9), (5, 44, 9), (9, 86, 9)],
    },
    Row {
        words: "show A",
        input: OPAQUE,
        out: OPAQUE_SHOWN,
        report: "",
        left: 0,
        calls: Calls::Writes,
        count: 86,
        steps: [(0, 0, 4), (44, 0, 0), NONE],
    },
    // A line is built once its line feed was read.
    Row {
        words: "build A",
        input: THREE_LINES,
        out: OPAQUE,
        report: "",
        left: 0,
        calls: Calls::Reads,
        count: 36,
        steps: [(0, 0, 35), (18, 5, 35), (35, 9, 35)],
    },
    // The reader of lines reads ahead.
    Row {
        words: "build A",
        input: THREE_LINES,
        out: OPAQUE,
        report: "",
        left: 0,
        calls: Calls::Writes,
        count: 9,
        steps: [(0, 0, 0), NONE, NONE],
    },
    // No input is read.
    Row {
        words: "check E",
        input: OPAQUE,
        out: CHECKED,
        report: "",
        left: 9,
        calls: Calls::Writes,
        count: 176,
        steps: [(0, 0, 9), NONE, NONE],
    },
];

/// The output and the input that stand where that call fails.
fn standing(steps: &[Step; 3], call: u64) -> (usize, usize) {
    let mut found = (0, 0);
    for &(from, written, left) in steps {
        if from <= call {
            found = (written, left);
        }
    }
    found
}

/// The first octets, or all where there are fewer.
fn front(octets: &[u8], count: usize) -> &[u8] {
    &octets[..count.min(octets.len())]
}

/// The outside in which the call of that number fails, of those.
fn outside(calls: Calls, call: u64) -> Outside {
    match calls {
        Calls::Loads => Outside::Load(call),
        Calls::Reads => Outside::OctetRead(call),
        Calls::Writes => Outside::OctetWrite(call),
        Calls::Lines => Outside::OctetReport(call),
    }
}

/// The number of the first call that a run without fault doesn't make. What isn't read of the input is then looked for by one
/// read more.
fn past(row: &Row) -> u64 {
    match row.calls {
        Calls::Reads => row.count.saturating_add(1),
        _ => row.count,
    }
}

/// What is left where that call fails, of the whole output.
fn left_at<'t>(row: &Row, call: u64, out: &'t [u8]) -> Left<'t> {
    let (written, left) = standing(&row.steps, call);
    let count = call as usize;
    match row.calls {
        Calls::Loads => Left {
            status: 4,
            out: &[],
            report: if call == 0 {
                b"fault file 0\n"
            } else {
                b"fault file 1\n"
            },
            left,
        },
        Calls::Reads => Left {
            status: 4,
            out: front(out, written),
            report: b"fault read\n",
            left: left.saturating_sub(count),
        },
        Calls::Writes => Left {
            status: 4,
            out: front(out, count),
            report: b"fault write\n",
            left,
        },
        Calls::Lines => Left {
            status: 4,
            out: front(out, written),
            report: front(row.report.as_bytes(), count),
            left,
        },
    }
}

/// Runs a row with each of its calls failing, and with the call after them, which isn't made.
fn each_fails(rt: &impl Abort, alloc: Global, row: &Row) {
    let input = row.input.made(rt, alloc);
    let out = row.out.made(rt, alloc);
    for call in 0..row.count {
        let want = left_at(row, call, &out);
        let run = Run {
            words: row.words,
            input: input.as_slice(),
            outside: outside(row.calls, call),
        };
        leaves(rt, alloc, run, want);
    }
    let want = Left {
        status: 0,
        out: &out,
        report: row.report.as_bytes(),
        left: row.left,
    };
    let run = Run {
        words: row.words,
        input: input.as_slice(),
        outside: outside(row.calls, past(row)),
    };
    leaves(rt, alloc, run, want);
}

#[test]
fn each_call_of_the_outside_fails_in_turn(rt: HostRuntime) {
    let alloc = rt.alloc();
    for row in &ROWS {
        each_fails(&rt, alloc, row);
    }
}
