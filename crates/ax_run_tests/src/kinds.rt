//! Wide and closed items in each command: a counter of two octets, and a last part without FX.

use crate::world::{Filter, Left, Run, filter_leaves, leaves, leaves_octets, leaves_text};
use std::alloc::Global;
use std::process::Abort;

// The words, the input, the exit status, the output and the report. Each input is read to its end.
static OCTETS: [(&str, &str, u8, &str, &str); 27] = [
    (
        "canon W",
        "CE 00 08 80 00 02 AA BB",
        0,
        "CE 00 08 80 00 02 AA BB",
        "",
    ),
    ("canon W", "CE 00 06 80 00 00", 0, "CE 00 06 80 00 00", ""),
    // The counter is cut after its first octet, or isn't there: its first bit is named.
    (
        "canon W",
        "CE 00 05 80 00",
        3,
        "",
        "refused block 0 bit 32 RunsOut\n",
    ),
    (
        "canon W",
        "CE 00 04 80",
        3,
        "",
        "refused block 0 bit 32 RunsOut\n",
    ),
    // The most significant octet of the counter is first: 256 occurrences, of which one is there.
    (
        "canon W",
        "CE 00 07 80 01 00 AA",
        3,
        "",
        "refused block 0 bit 56 RunsOut\n",
    ),
    ("canon W", "CE 00 06 40 0B FF", 0, "CE 00 06 40 0B FF", ""),
    ("canon W", "CE 00 06 40 0B FE", 0, "CE 00 06 40 0B FE", ""),
    // After the last part comes the next record.
    (
        "canon W",
        "CE 00 07 40 0B FF 00",
        0,
        "CE 00 07 40 0B FF 00",
        "",
    ),
    (
        "canon W",
        "CE 00 05 40 0B",
        3,
        "",
        "refused block 0 bit 40 RunsOut\n",
    ),
    ("canon W", "CE 00 05 40 0A", 0, "CE 00 05 40 0A", ""),
    (
        "salvage W",
        "CE 00 05 80 00 CE 00 05 40 0B CE 00 06 40 0B FF",
        0,
        "CE 00 06 40 0B FF",
        "refused block 0 bit 32 RunsOut\nrefused block 1 bit 40 RunsOut\nsalvaged 206 written 1 refused 2\n",
    ),
    // An occurrence with a presence octet that marks nothing.
    (
        "canon X",
        "CF 00 09 80 00 01 81 00 05",
        0,
        "CF 00 08 80 00 01 80 05",
        "",
    ),
    ("canon X", "CF 00 05 40 0B", 0, "CF 00 05 40 0B", ""),
    (
        "canon X",
        "CF 00 04 40",
        3,
        "",
        "refused block 0 bit 32 RunsOut\n",
    ),
    (
        "canon X",
        "CF 00 09 20 00 02 0A 0B FF",
        0,
        "CF 00 09 20 00 02 0A 0B FF",
        "",
    ),
    (
        "canon X",
        "CF 00 0A 10 00 01 00 02 AA BB",
        0,
        "CF 00 0A 10 00 01 00 02 AA BB",
        "",
    ),
    (
        "canon X",
        "CF 00 07 10 00 01 00",
        3,
        "",
        "refused block 0 bit 48 RunsOut\n",
    ),
    (
        "migrate W W",
        "CE 00 0B C0 00 02 AA BB 0B FF 00",
        0,
        "CE 00 0B C0 00 02 AA BB 0B FF 00",
        "",
    ),
    // A wide and a counted item are two kinds; of a closed and an extended item the first parts that are alike pass.
    (
        "migrate W W-counted",
        "CE 00 08 80 00 02 AA BB",
        0,
        "CE 00 04 00",
        "lost block 0 record 0 206/010\n",
    ),
    (
        "migrate W-counted W",
        "CE 00 07 80 02 AA BB",
        0,
        "CE 00 04 00",
        "lost block 0 record 0 206/010\n",
    ),
    (
        "migrate W W-counted",
        "CE 00 05 40 0A",
        0,
        "CE 00 05 40 0A",
        "",
    ),
    (
        "migrate W W-counted",
        "CE 00 06 40 0B FF",
        0,
        "CE 00 05 40 0A",
        "lost block 0 record 0 206/020/part1\n",
    ),
    // FX in the last part of the extended item is still refused.
    (
        "canon W-counted",
        "CE 00 06 40 0B FF",
        3,
        "",
        "refused block 0 bit 47 ExtensionPastEnd\n",
    ),
    (
        "canon W-counted",
        "CE 00 06 40 0B FE",
        0,
        "CE 00 06 40 0B FE",
        "",
    ),
    (
        "check W-empty",
        "",
        2,
        "",
        "flaw file 0 Empty 206/020/part0\nrefused file 0 Flawed 1\n",
    ),
    ("canon X", "CF 00 06 08 01 2A", 0, "CF 00 06 08 01 2A", ""),
    (
        "canon X",
        "CF 00 0A 04 00 01 01 00 01 05",
        0,
        "CF 00 0A 04 00 01 01 00 01 05",
        "",
    ),
];

#[test]
fn octets_of_wide_and_closed_items(rt: HostRuntime) {
    let alloc = rt.alloc();
    for &(words, input, status, out, report) in &OCTETS {
        let want = (status, out, report, 0);
        leaves_octets(&rt, alloc, Run::sound(words, input), want);
    }
}

// The words, the input and the output.
static LINES: [(&str, &str, &str); 11] = [
    (
        "text W",
        "CE 00 08 80 00 02 AA BB",
        "block 206 { record { 010 { 170 187 } } }\n",
    ),
    (
        "text W",
        "CE 00 06 80 00 00",
        "block 206 { record { 010 { } } }\n",
    ),
    (
        "text W",
        "CE 00 07 40 0B FF 00",
        "block 206 { record { 020 { part { A 5 } part { B 255 } } } record { } }\n",
    ),
    (
        "text W",
        "CE 00 05 40 0A",
        "block 206 { record { 020 { part { A 5 } } } }\n",
    ),
    (
        "text X",
        "CF 00 05 40 0B",
        "block 207 { record { 020 { part { B 11 } } } }\n",
    ),
    (
        "text X",
        "CF 00 09 20 00 02 0A 0B FF",
        "block 207 { record { 030 { { part { A 5 } } { part { A 5 } part { B 255 } } } } }\n",
    ),
    (
        "text X",
        "CF 00 0A 10 00 01 00 02 AA BB",
        "block 207 { record { 040 { { 170 187 } } } }\n",
    ),
    (
        "show W",
        "CE 00 06 80 00 00",
        "block 0 category 206 octets 6 records 1\nrecord 0\n206/010 occurrences 0\n",
    ),
    (
        "show W",
        "CE 00 0A C0 00 02 AA BB 0B FF",
        "block 0 category 206 octets 10 records 1\nrecord 0\n206/010 occurrences 2\n206/010[0] = 170\n206/010[1] = 187\n206/020 parts 2\n206/020/A = 5\n206/020/B = 255\n",
    ),
    (
        "show W",
        "CE 00 06 40 0A 00",
        "block 0 category 206 octets 6 records 2\nrecord 0\n206/020 parts 1\n206/020/A = 5\nrecord 1\n",
    ),
    (
        "show X",
        "CF 00 0A 28 00 01 0B FF 01 2A",
        "block 0 category 207 octets 10 records 1\nrecord 0\n207/030 occurrences 1\n207/030[0] parts 2\n207/030[0]/A = 5\n207/030[0]/B = 255\n207/050 occurrences 1\n207/050[0] = 42\n",
    ),
];

#[test]
fn lines_of_wide_and_closed_items(rt: HostRuntime) {
    let alloc = rt.alloc();
    for &(words, input, out) in &LINES {
        leaves_text(&rt, alloc, Run::sound(words, input), (0, out, "", 0));
    }
}

// The files, a line, and the number of its first bad token.
static BAD: [(&str, &str, u32); 3] = [
    ("W", "block 206 { record { 020 { } } }", 7),
    (
        "W",
        "block 206 { record { 020 { part { A 5 } part { B 256 } } } }",
        15,
    ),
    (
        "W",
        "block 206 { record { 020 { part { A 5 } part { B 255 } part { } } } }",
        17,
    ),
];

#[test]
fn bad_tokens_in_a_closed_item(rt: HostRuntime) {
    let alloc = rt.alloc();
    for &(file, line, token) in &BAD {
        let report = format!(in alloc; "refused line 0 BadToken token {token}\n");
        let report = report.expect(&rt, "memory");
        let words = format!(in alloc; "build {file}").expect(&rt, "memory");
        let want = Left {
            status: 3,
            out: b"",
            report: report.as_bytes(),
            left: 0,
        };
        let run = Run::sound(words.as_str(), line.as_bytes());
        leaves(&rt, alloc, run, want);
    }
}

// An expression, the input, and the output.
static FILTERED: [(&str, &str, &str); 6] = [
    (
        "is 206/020/B = 255",
        "CE 00 06 40 0B FF",
        "CE 00 06 40 0B FF",
    ),
    (
        "present 206/020/B",
        "CE 00 06 40 0B FE",
        "CE 00 06 40 0B FE",
    ),
    ("is 206/020/B = 255", "CE 00 05 40 0A", ""),
    ("present 206/020/B", "CE 00 05 40 0A", ""),
    (
        "not { present 206/020/B }",
        "CE 00 05 40 0A",
        "CE 00 05 40 0A",
    ),
    (
        "is 206/020/A = 5",
        "CE 00 08 40 0B FF 40 0A",
        "CE 00 08 40 0B FF 40 0A",
    ),
];

#[test]
fn filtered_by_members_of_a_closed_item(rt: HostRuntime) {
    let alloc = rt.alloc();
    for &(expression, input, out) in &FILTERED {
        let files = "W";
        let run = Run::sound(Filter { expression, files }, input);
        filter_leaves(&rt, alloc, run, (0, out, "", 0));
    }
}

/// A block of category 206 with so many occurrences of 7 in its first item, of which the counter has these octets.
fn block_of(
    rt: &impl Abort,
    alloc: Global,
    length: [u8; 2],
    counter: [u8; 2],
    count: u32,
) -> Vec<u8> {
    let mut made = vec![in alloc; 206, length[0], length[1], 128].expect(rt, "memory");
    made.extend_from_slice(&counter).expect(rt, "memory");
    for _ in 0..count {
        made.push(7).expect(rt, "memory");
    }
    made
}

/// A line of `build` with so many occurrences of 7 in the first item of a category.
fn line_of(rt: &impl Abort, alloc: Global, front: &str, count: u32) -> Vec<u8> {
    let mut made = front.as_bytes().to_vec(alloc).expect(rt, "memory");
    for _ in 0..count {
        made.extend_from_slice(b" 7").expect(rt, "memory");
    }
    made.extend_from_slice(b" } } }\n").expect(rt, "memory");
    made
}

const FRONT_OF_W: &str = "block 206 { record { 010 {";

const FRONT_OF_COUNTED: &str = "block 207 { record { 050 {";

/// Asserts what words leave of an input that is read to its end.
fn leave(
    rt: &impl Abort,
    alloc: Global,
    words: &str,
    input: &[u8],
    (status, out, report): (u8, &[u8], &str),
) {
    let want = Left {
        status,
        out,
        report: report.as_bytes(),
        left: 0,
    };
    leaves(rt, alloc, Run::sound(words, input), want);
}

/// The listing of a block of category 206 with so many occurrences of 7, of that many octets.
fn listing_of(rt: &impl Abort, alloc: Global, octets: u32, count: u32) -> Vec<u8> {
    let front = format!(in alloc;
        "block 0 category 206 octets {octets} records 1\nrecord 0\n206/010 occurrences {count}\n"
    );
    let front = front.expect(rt, "memory");
    let mut made = front.as_bytes().to_vec(alloc).expect(rt, "memory");
    for number in 0..count {
        let line = format!(in alloc; "206/010[{number}] = 7\n").expect(rt, "memory");
        made.extend_from_slice(line.as_bytes()).expect(rt, "memory");
    }
    made
}

// One more than a counter of one octet tells: in octets, as text, and back; and as a listing.
#[test]
fn occurrences_past_one_octet(rt: HostRuntime) {
    let alloc = rt.alloc();
    let block = block_of(&rt, alloc, [1, 6], [1, 0], 256);
    let line = line_of(&rt, alloc, FRONT_OF_W, 256);
    leave(&rt, alloc, "canon W", &block, (0, &block, ""));
    leave(&rt, alloc, "text W", &block, (0, &line, ""));
    leave(&rt, alloc, "build W", &line, (0, &block, ""));
    let listing = listing_of(&rt, alloc, 262, 256);
    leave(&rt, alloc, "show W", &block, (0, &listing, ""));
    let counted = line_of(&rt, alloc, FRONT_OF_COUNTED, 256);
    let report = "refused line 0 BadToken token 262\n";
    leave(&rt, alloc, "build X", &counted, (3, b"", report));
}

// The longest block, and one whose counter says one occurrence more.
#[test]
fn occurrences_in_the_longest_block(rt: HostRuntime) {
    let alloc = rt.alloc();
    let block = block_of(&rt, alloc, [255, 255], [255, 249], 65_529);
    leave(&rt, alloc, "canon W", &block, (0, &block, ""));
    let line = line_of(&rt, alloc, FRONT_OF_W, 65_529);
    leave(&rt, alloc, "build W", &line, (0, &block, ""));
    let short = block_of(&rt, alloc, [255, 255], [255, 250], 65_529);
    let report = "refused block 0 bit 524280 RunsOut\n";
    leave(&rt, alloc, "canon W", &short, (3, b"", report));
}

// How many values a line has, and what `build` says of it.
static LONG: [(u32, &str); 3] = [
    (65_530, "refused line 0 TooLong 65536\n"),
    (65_535, "refused line 0 TooLong 65541\n"),
    // One more than a counter of two octets tells.
    (65_536, "refused line 0 BadToken token 65542\n"),
];

#[test]
fn occurrences_past_the_longest_block(rt: HostRuntime) {
    let alloc = rt.alloc();
    for &(count, report) in &LONG {
        let line = line_of(&rt, alloc, FRONT_OF_W, count);
        leave(&rt, alloc, "build W", &line, (3, b"", report));
    }
}
