//! Faults of the outside: each call that fails, and outputs that are too small.

use crate::world::{Outside, Run, leaves_octets};

const NORTH: &str = "22 00 0A E0 19 0C 01 00 00 80";

const NORTH_TWICE: &str = "22 00 0A E0 19 0C 01 00 00 80 22 00 0A E0 19 0C 01 00 00 80";

// The front of `accepted 034 "034-E" items 3 slots 3`, 20 octets of it.
const FRONT_OF_E: &str = "61 63 63 65 70 74 65 64 20 30 33 34 20 22 30 33 34 2D 45 22";

// How the outside fails, the words and the input; and the status, the output, the report, and how many octets aren't read.
// A file is loaded once, and none where the words have no shape.
static FAILING: [(Outside, &str, &str, u8, &str, &str, usize); 19] = [
    (
        Outside::Load(0),
        "canon A",
        NORTH,
        4,
        "",
        "fault file 0\n",
        10,
    ),
    (
        Outside::Load(1),
        "canon A 048",
        NORTH,
        4,
        "",
        "fault file 1\n",
        10,
    ),
    (
        Outside::OctetRead(0),
        "canon A",
        NORTH,
        4,
        "",
        "fault read\n",
        10,
    ),
    (
        Outside::OctetRead(1),
        "canon A",
        NORTH,
        4,
        "",
        "fault read\n",
        9,
    ),
    (
        Outside::Write(0),
        "canon A",
        NORTH,
        4,
        "",
        "fault write\n",
        0,
    ),
    (
        Outside::Write(1),
        "canon A",
        NORTH_TWICE,
        4,
        NORTH,
        "fault write\n",
        0,
    ),
    (
        Outside::OctetWrite(3),
        "canon A",
        NORTH,
        4,
        "22 00 0A",
        "fault write\n",
        0,
    ),
    (
        Outside::Room(20),
        "check E",
        NORTH,
        4,
        FRONT_OF_E,
        "fault write\n",
        10,
    ),
    (Outside::Load(2), "canon A 048", NORTH, 0, NORTH, "", 0),
    (
        Outside::Load(0),
        "canon",
        NORTH,
        1,
        "",
        "refused usage\n",
        10,
    ),
    (Outside::Write(1), "canon A", NORTH, 0, NORTH, "", 0),
    (Outside::Report(0), "", NORTH, 1, "", "", 10),
    (Outside::Report(0), "canon A", "22 00 04 01", 3, "", "", 0),
    (Outside::Report(0), "canon E", "22 00 04 10", 3, "", "", 0),
    (Outside::Report(0), "check F", NORTH, 2, "", "", 10),
    (Outside::ReportRoom(5), "", NORTH, 1, "", "refus", 10),
    (
        Outside::ReportRoom(5),
        "canon A",
        "22 00 04 01",
        3,
        "",
        "refus",
        0,
    ),
    (Outside::ReportRoom(5), "check F", NORTH, 2, "", "flaw ", 10),
    (Outside::ReportRoom(5), "canon Q", NORTH, 4, "", "fault", 10),
];

#[test]
fn failing_calls_and_outputs_that_are_too_small(rt: HostRuntime) {
    let alloc = rt.alloc();
    for &(outside, words, input, status, out, report, left) in &FAILING {
        let run = Run {
            words,
            input,
            outside,
        };
        leaves_octets(&rt, alloc, run, (status, out, report, left));
    }
}
