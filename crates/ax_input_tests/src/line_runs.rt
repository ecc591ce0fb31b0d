//! Runs of a line command over inputs and outputs in memory.
ghost use Rattle.ax_lines.specs.Examples.{echo_command};

use crate::outside::{Input, source};
use ax_lines::{LineStop, LineWork, LinesEnd, run_lines};
use ax_outside::{MemSink, fill};
use std::alloc::Global;
use std::process::Abort;

// An empty line asks for nothing, a line that begins with `x` is refused, and another one gives its octets.
#[derive(Drop)]
struct Echo {
    alloc: Global,
    laid: Vec<u8>,
}

impl LineWork for Echo {
    type Fault = u64;

    ghost command = { λ s. echo_command };

    ghost sound = { λ s. Unit {0} };

    ghost laid = { λ s. s.laid.items };

    fn take(&mut self, number: u64, line: &[u8]) -> Result<bool, LineStop<u64>> {
        match line {
            [] => Ok(false),
            [b'x', ..] => Err(LineStop::Refused(number)),
            _ => match Vec::from_slice(self.alloc, line) {
                Ok(laid) => {
                    self.laid = laid;
                    Ok(true)
                }
                Err(_) => Err(LineStop::OutOfMemory),
            },
        }
    }

    fn octets(&self) -> &[u8] {
        &self.laid
    }
}

/// An output: the most octets that a write takes, and the numbers of the writes that fail.
type Output<'a> = (u32, &'a [u64]);

const SOUND: Output<'static> = (100, &[]);

fn sink(rt: &impl Abort, alloc: Global, (largest, failing): Output<'_>) -> MemSink {
    let failing = Vec::from_slice(alloc, failing).expect(rt, "memory");
    MemSink::new(alloc, 100, largest, failing).expect(rt, "memory")
}

fn echo_work(alloc: Global) -> Echo {
    Echo {
        alloc,
        laid: Vec::new(alloc),
    }
}

/// What a run leaves: the text that is written, and the end.
#[derive(Clone, Copy)]
struct Left<'w> {
    written: &'w str,
    end: LinesEnd<u64>,
}

/// Asserts what a run over the input leaves.
fn leaves(rt: &impl Abort, alloc: Global, input: Input<'_>, output: Output<'_>, want: Left<'_>) {
    let Left { written, end } = want;
    let mut source = source(rt, alloc, input);
    let mut out = sink(rt, alloc, output);
    let ended = run_lines(alloc, &mut echo_work(alloc), &mut source, &mut out);
    assert!(rt; ended == end, "where {written} is written");
    assert_eq!(rt; out.written(), written.as_bytes());
}

// One octet more than a line may have.
const TOO_MANY: usize = 16_777_217;

// The octets of a text, in which `~` stands for a line that is too long.
fn octets_of(rt: &impl Abort, alloc: Global, text: &str) -> Vec<u8> {
    let mut made = Vec::new(alloc);
    for octet in text.as_bytes() {
        if *octet == b'~' {
            made.resize(made.len() + TOO_MANY, b'~')
                .expect(rt, "memory");
        } else {
            made.push(*octet).expect(rt, "memory");
        }
    }
    made
}

// An input, what is written, and the end.
const CASES: [(&str, &str, LinesEnd<u64>); 9] = [
    ("", "", LinesEnd::Done { results: 0 }),
    ("\n\n", "", LinesEnd::Done { results: 0 }),
    ("12\n\n3", "123", LinesEnd::Done { results: 2 }),
    ("12\n\n3\n", "123", LinesEnd::Done { results: 2 }),
    ("x", "", LinesEnd::Refused { line: 0, fault: 0 }),
    ("1\n\nx\n2", "1", LinesEnd::Refused { line: 2, fault: 2 }),
    ("1\n\n~", "1", LinesEnd::LineTooLong { line: 2 }),
    ("x\n~", "", LinesEnd::Refused { line: 0, fault: 0 }),
    ("~\nx", "", LinesEnd::LineTooLong { line: 0 }),
];

const CUTS: [&[u32]; 2] = [&[], &[1; 9]];

fn text_leaves(rt: &impl Abort, alloc: Global, text: &str, cuts: &[u32], want: Left<'_>) {
    let octets = octets_of(rt, alloc, text);
    leaves(rt, alloc, (&octets, cuts, &[]), SOUND, want);
}

#[test]
fn each_cut_gives_the_same(rt: HostRuntime) {
    for &cuts in &CUTS {
        for &(text, written, end) in &CASES {
            text_leaves(&rt, rt.alloc(), text, cuts, Left { written, end });
        }
    }
}

const LINES: &[u8] = b"12\n\n3\n";

// Each call of that input octet by octet, and what is written where it fails: the results of the lines whose line feed
// was taken.
const READS: [(u64, &str); 7] = [
    (0, ""),
    (1, ""),
    (2, ""),
    (3, "12"),
    (4, "12"),
    (5, "12"),
    (6, "123"),
];

#[test]
fn a_failing_read_ends_the_run(rt: HostRuntime) {
    for &(call, written) in &READS {
        let input: Input<'_> = (LINES, &[1; 6], &[call]);
        let end = LinesEnd::ReadFault;
        leaves(&rt, rt.alloc(), input, SOUND, Left { written, end });
    }
}

const UNENDED: &[u8] = b"12\n3";

// The same of an input whose last line has no line feed: it isn't written where a read fails, and once the input has ended
// there is no later read.
const LAST_READS: [(u64, &str, LinesEnd<u64>); 3] = [
    (3, "12", LinesEnd::ReadFault),
    (4, "12", LinesEnd::ReadFault),
    (5, "123", LinesEnd::Done { results: 2 }),
];

#[test]
fn nothing_is_read_once_the_input_has_ended(rt: HostRuntime) {
    for &(call, written, end) in &LAST_READS {
        let input: Input<'_> = (UNENDED, &[1; 6], &[call]);
        leaves(&rt, rt.alloc(), input, SOUND, Left { written, end });
    }
}

const REFUSED: &[u8] = b"x\n1\n";

// The line after it is left, octet by octet.
#[test]
fn nothing_is_read_after_a_refused_line(rt: HostRuntime) {
    let alloc = rt.alloc();
    let mut source = source(&rt, alloc, (REFUSED, &[1; 4], &[]));
    let mut out = sink(&rt, alloc, SOUND);
    let ended = run_lines(alloc, &mut echo_work(alloc), &mut source, &mut out);
    assert!(rt; ended == LinesEnd::Refused { line: 0, fault: 0 });
    let mut rest = [0; 4];
    let count = fill(&mut source, &mut rest).expect(&rt, "a read");
    assert_eq!(rt; &rest[..count], "1\n".as_bytes());
}

// How many octets a call writes at most, the failing call, what is written, and the end: each result is one piece.
const WRITES: [(u32, u64, &str, LinesEnd<u64>); 7] = [
    (1, 0, "", LinesEnd::WriteFault),
    (1, 1, "1", LinesEnd::WriteFault),
    (1, 2, "12", LinesEnd::WriteFault),
    (1, 3, "123", LinesEnd::Done { results: 2 }),
    (100, 0, "", LinesEnd::WriteFault),
    (100, 1, "12", LinesEnd::WriteFault),
    (100, 2, "123", LinesEnd::Done { results: 2 }),
];

#[test]
fn a_failing_write_ends_the_run(rt: HostRuntime) {
    for &(largest, call, written, end) in &WRITES {
        let input: Input<'_> = (LINES, &[], &[]);
        let output: Output<'_> = (largest, &[call]);
        leaves(&rt, rt.alloc(), input, output, Left { written, end });
    }
}
