//! `expand`: the lines of contents of RE, the files that are refused, and what stands where a call of the outside fails.

use crate::world::{Left, Outside, Run, bytes, leaves, leaves_text};

// The words, the input, the exit status, the output and the report. Each input is read to its end. RE of file 048 has field
// reference number 28.
static CONTENTS: [(&str, &str, u8, &str, &str); 27] = [
    (
        "expand 048 T1",
        "30 00 0A 01 01 01 02 03 80 05",
        0,
        "re block 0 record 0 \"8005\" record { RE { A 5 } }\n",
        "",
    ),
    (
        "expand 048 T1",
        "30 00 0A 01 01 01 02 03 40 05",
        0,
        "",
        "unread block 0 record 0 bit 1 UndefinedSlot\n",
    ),
    (
        "expand 048 T1",
        "30 00 0B 01 01 01 02 04 80 05 07",
        0,
        "",
        "unread block 0 record 0 bit 16 TrailingOctets\n",
    ),
    // A redundant octet of the presence field isn't in the canonical content.
    (
        "expand 048 T2",
        "30 00 0B 01 01 01 02 04 81 00 05",
        0,
        "re block 0 record 0 \"8005\" record { RE { A 5 } }\n",
        "",
    ),
    // No octet at all, and no mark.
    (
        "expand 048 T1",
        "30 00 08 01 01 01 02 01",
        0,
        "",
        "unread block 0 record 0 bit 0 RunsOut\n",
    ),
    (
        "expand 048 T2",
        "30 00 08 01 01 01 02 01",
        0,
        "",
        "unread block 0 record 0 bit 0 RunsOut\n",
    ),
    (
        "expand 048 T1",
        "30 00 09 01 01 01 02 02 00",
        0,
        "re block 0 record 0 \"00\" record { RE { } }\n",
        "",
    ),
    (
        "expand 048 T2",
        "30 00 09 01 01 01 02 02 00",
        0,
        "re block 0 record 0 \"00\" record { RE { } }\n",
        "",
    ),
    (
        "expand 048 T1",
        "30 00 0A 01 01 01 02 03 00 07",
        0,
        "",
        "unread block 0 record 0 bit 8 TrailingOctets\n",
    ),
    (
        "expand 048 T2",
        "30 00 0A 01 01 01 02 03 00 07",
        0,
        "",
        "unread block 0 record 0 bit 8 TrailingOctets\n",
    ),
    // A mark past the last slot, and one of a spare slot behind one of an item.
    (
        "expand 048 T1",
        "30 00 0A 01 01 01 02 03 10 05",
        0,
        "",
        "unread block 0 record 0 bit 3 UndefinedSlot\n",
    ),
    (
        "expand 048 T1",
        "30 00 0A 01 01 01 02 03 C0 05",
        0,
        "",
        "unread block 0 record 0 bit 1 UndefinedSlot\n",
    ),
    // Occurrences, and one that is cut.
    (
        "expand 048 T1",
        "30 00 0C 01 01 01 02 05 20 02 AA BB",
        0,
        "re block 0 record 0 \"2002aabb\" record { RE { B { 170 187 } } }\n",
        "",
    ),
    (
        "expand 048 T1",
        "30 00 0B 01 01 01 02 04 20 02 AA",
        0,
        "",
        "unread block 0 record 0 bit 24 RunsOut\n",
    ),
    (
        "expand 048 T1",
        "30 00 0C 01 01 01 02 05 A0 05 01 07",
        0,
        "re block 0 record 0 \"a0050107\" record { RE { A 5 B { 7 } } }\n",
        "",
    ),
    // A third octet of the presence field; and slot 8, which needs the second.
    (
        "expand 048 T2",
        "30 00 0C 01 01 01 02 05 81 01 00 05",
        0,
        "",
        "unread block 0 record 0 bit 15 PresenceTooLong\n",
    ),
    (
        "expand 048 T2",
        "30 00 0B 01 01 01 02 04 01 80 05",
        0,
        "re block 0 record 0 \"018005\" record { RE { B 5 } }\n",
        "",
    ),
    // Two octets of marks: the second is missing, has a mark without a slot, and is empty.
    (
        "expand 048 two",
        "30 00 09 01 01 01 02 02 80",
        0,
        "",
        "unread block 0 record 0 bit 8 RunsOut\n",
    ),
    (
        "expand 048 two",
        "30 00 0A 01 01 01 02 03 80 05",
        0,
        "",
        "unread block 0 record 0 bit 13 UndefinedSlot\n",
    ),
    (
        "expand 048 two",
        "30 00 0B 01 01 01 02 04 80 00 05",
        0,
        "re block 0 record 0 \"800005\" record { RE { A 5 } }\n",
        "",
    ),
    // Blocks of other categories are counted, and a record without RE has no line.
    (
        "expand 048 T1",
        "3E 00 05 80 FF 30 00 0D 80 19 0C 01 01 01 02 03 80 05",
        0,
        "re block 1 record 1 \"8005\" record { RE { A 5 } }\n",
        "",
    ),
    // A content that is read and one that isn't, in one block and in the next one.
    (
        "expand 048 T1",
        "30 00 11 01 01 01 02 03 80 05 01 01 01 02 03 40 05",
        0,
        "re block 0 record 0 \"8005\" record { RE { A 5 } }\n",
        "unread block 0 record 1 bit 1 UndefinedSlot\n",
    ),
    (
        "expand 048 T1",
        "30 00 0A 01 01 01 02 03 40 05 30 00 11 01 01 01 02 03 80 06 01 01 01 02 03 80 07",
        0,
        "re block 1 record 0 \"8006\" record { RE { A 6 } }\nre block 1 record 1 \"8007\" record { RE { A 7 } }\n",
        "unread block 0 record 0 bit 1 UndefinedSlot\n",
    ),
    // A fault of a body ends the run; of its block there is no line, though RE stands before the fault.
    (
        "expand 048 T1",
        "30 00 0A 01 01 01 02 03 80 05 30 00 05 80 19",
        3,
        "re block 0 record 0 \"8005\" record { RE { A 5 } }\n",
        "refused block 1 bit 32 RunsOut\n",
    ),
    (
        "expand 048 T1",
        "30 00 0C 01 01 01 02 03 80 05 80 19",
        3,
        "",
        "refused block 0 bit 88 RunsOut\n",
    ),
    // RE in another slot, behind an item.
    (
        "expand re-2 T1",
        "30 00 08 C0 11 03 80 05",
        0,
        "re block 0 record 0 \"8005\" record { RE { A 5 } }\n",
        "",
    ),
    ("expand 048 T1", "", 0, "", ""),
];

#[test]
fn each_content_has_its_line(rt: HostRuntime) {
    let alloc = rt.alloc();
    for &(words, input, status, out, report) in &CONTENTS {
        let want = (status, out, report, 0);
        for outside in [Outside::Sound, Outside::OctetReads] {
            let run = Run {
                words,
                input,
                outside,
            };
            leaves_text(&rt, alloc, run, want);
        }
    }
}

// The words and the report, where a file is refused, over no input.
static FILES: [(&str, u8, &str); 21] = [
    (
        "expand 048 fixed-16",
        2,
        "refused file 1 BadToken token 5\n",
    ),
    ("expand 048 fixed-0", 2, "refused file 1 BadToken token 5\n"),
    (
        "expand 048 fixed-01",
        2,
        "refused file 1 BadToken token 5\n",
    ),
    ("expand 048 fixed", 2, "refused file 1 BadToken token 5\n"),
    ("expand 048 fx-1", 2, "refused file 1 BadToken token 5\n"),
    ("expand 048 more", 2, "refused file 1 BadToken token 11\n"),
    ("expand 048 open", 2, "refused file 1 BadToken token 10\n"),
    ("expand 048 no-kind", 2, "refused file 1 BadToken token 7\n"),
    (
        "expand 048 no-kind-fixed",
        2,
        "refused file 1 BadToken token 8\n",
    ),
    (
        "expand 048 nine-slots",
        2,
        "flaw file 1 TooManySlots 048/RE\nrefused file 1 Flawed 1\n",
    ),
    (
        "expand 048 no-octets",
        2,
        "flaw file 1 NotOctets 048/RE/A\nrefused file 1 Flawed 1\n",
    ),
    // Each file is one of its own kind.
    ("expand 048 048", 2, "refused file 1 BadToken token 0\n"),
    ("expand T1 T1", 2, "refused file 0 BadToken token 0\n"),
    ("check T1", 2, "refused file 0 BadToken token 0\n"),
    // The first file is judged whole before the second is loaded.
    (
        "expand F none",
        2,
        "flaw file 0 NotOctets 034/010\nflaw file 0 RepeatedInUap 034/uap/010\nrefused file 0 Flawed 2\n",
    ),
    ("expand 048 none", 4, "fault file 1\n"),
    // The categories come first, then the use.
    ("expand E T1", 2, "refused editions 034 048\n"),
    ("expand E T1-034", 2, "refused expansion 034\n"),
    ("expand re-element T1", 2, "refused expansion 048\n"),
    ("expand re-beside T1", 2, "refused expansion 048\n"),
    ("expand re-not-named T1", 2, "refused expansion 048\n"),
];

#[test]
fn files_are_refused(rt: HostRuntime) {
    let alloc = rt.alloc();
    for &(words, status, report) in &FILES {
        let want = (status, "", report, 5);
        leaves_text(&rt, alloc, Run::sound(words, "3E 00 05 80 FF"), want);
    }
}

// Two blocks; the first has a content that isn't read, and before it one that is.
const TWO_BLOCKS: &str =
    "30 00 11 01 01 01 02 03 80 05 01 01 01 02 03 40 05 30 00 0A 01 01 01 02 03 80 07";

const FIRST: &str = "re block 0 record 0 \"8005\" record { RE { A 5 } }\n";

const UNREAD: &str = "unread block 0 record 1 bit 1 UndefinedSlot\n";

// How the outside fails, the status, the output, the report and how many octets aren't read. The lines of a block on the
// report come before those on the output.
static FAILING: [(Outside, u8, &str, &str, usize); 4] = [
    (Outside::Report(0), 4, "", "", 10),
    (
        Outside::Write(0),
        4,
        "",
        "unread block 0 record 1 bit 1 UndefinedSlot\nfault write\n",
        10,
    ),
    (
        Outside::Write(1),
        4,
        FIRST,
        "unread block 0 record 1 bit 1 UndefinedSlot\nfault write\n",
        0,
    ),
    (
        Outside::OctetWrite(3),
        4,
        "re ",
        "unread block 0 record 1 bit 1 UndefinedSlot\nfault write\n",
        10,
    ),
];

#[test]
fn the_outside_fails(rt: HostRuntime) {
    let alloc = rt.alloc();
    for &(outside, status, out, report, left) in &FAILING {
        let run = Run {
            words: "expand 048 T1",
            input: TWO_BLOCKS,
            outside,
        };
        leaves_text(&rt, alloc, run, (status, out, report, left));
    }
}

// The report fails in the midst of the line: it has a part of it, and the output nothing.
#[test]
fn each_octet_of_a_line_fails_in_turn(rt: HostRuntime) {
    let alloc = rt.alloc();
    let input = bytes(&rt, alloc, TWO_BLOCKS);
    for call in 0..UNREAD.len() {
        let want = Left {
            status: 4,
            out: b"",
            report: &UNREAD.as_bytes()[..call.min(UNREAD.len())],
            left: 10,
        };
        let run = Run {
            words: "expand 048 T1",
            input: input.as_slice(),
            outside: Outside::OctetReport(call as u64),
        };
        leaves(&rt, alloc, run, want);
    }
}
