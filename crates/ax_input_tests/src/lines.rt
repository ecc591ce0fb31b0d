//! Lines of inputs, however these are cut and fail.

use crate::outside::{Input, source};
use ax_lines::{LineError, LineReader};
use ax_outside::MemSource;
use std::alloc::Global;
use std::process::Abort;

// Whether the reader gives those lines next.
fn gives(reader: &mut LineReader, source: &mut MemSource, lines: &[&str]) -> bool {
    for line in lines {
        let same = match reader.next(source) {
            Ok(Some(octets)) => octets == line.as_bytes(),
            _ => false,
        };
        if !same {
            return false;
        }
    }
    true
}

// Whether the reader ends so, and again.
fn ends(reader: &mut LineReader, source: &mut MemSource, end: Option<LineError>) -> bool {
    for _ in 0..2 {
        let same = match reader.next(source) {
            Ok(Some(_)) => false,
            Ok(None) => end.is_none(),
            Err(error) => end == Some(error),
        };
        if !same {
            return false;
        }
    }
    true
}

/// The most octets that a reader takes: of a line, and of the whole input.
#[derive(Clone, Copy)]
struct Limits {
    line: u32,
    whole: u64,
}

/// What a reader gives: the lines, and the end.
#[derive(Clone, Copy)]
struct Given<'l> {
    lines: &'l [&'l str],
    end: Option<LineError>,
}

/// Asserts what a reader with those limits gives.
fn reads(rt: &impl Abort, alloc: Global, input: Input<'_>, limits: Limits, want: Given<'_>) {
    assert!(rt; limits.line < 100);
    let mut reader = LineReader::new(alloc, limits.line, limits.whole).expect(rt, "memory");
    let mut source = source(rt, alloc, input);
    assert!(rt; gives(&mut reader, &mut source, want.lines), "of {input:?}");
    assert!(rt; ends(&mut reader, &mut source, want.end), "of {input:?}");
}

// An input, the limits on a line and on the input, the lines that are given, and the end.
const CASES: [(&str, u32, u64, &[&str], Option<LineError>); 16] = [
    ("", 4, 100, &[], None),
    ("", 0, 0, &[], None),
    ("abcd\n", 4, 100, &["abcd"], None),
    ("abcd", 4, 4, &["abcd"], None),
    ("\n", 4, 100, &[""], None),
    ("\n\na\n", 4, 100, &["", "", "a"], None),
    ("a\nb", 4, 3, &["a", "b"], None),
    ("a\r\nb\r", 4, 100, &["a\r", "b\r"], None),
    ("\n\n", 0, 2, &["", ""], None),
    ("abcde", 4, 100, &[], Some(LineError::LineTooLong)),
    ("abcde\n", 4, 100, &[], Some(LineError::LineTooLong)),
    ("abcde", 4, 4, &[], Some(LineError::InputTooLong)),
    ("abcd\n", 4, 4, &[], Some(LineError::InputTooLong)),
    ("a\nbcdef", 4, 6, &["a"], Some(LineError::InputTooLong)),
    ("a\nbcdef", 4, 7, &["a"], Some(LineError::LineTooLong)),
    ("a\nb\n", 4, 3, &["a"], Some(LineError::InputTooLong)),
];

const CUTS: [&[u32]; 3] = [&[], &[1; 8], &[2, 3, 1, 2]];

#[test]
fn each_cut_gives_the_same(rt: HostRuntime) {
    for &cuts in &CUTS {
        for &(text, line, whole, lines, end) in &CASES {
            let limits = Limits { line, whole };
            let input: Input<'_> = (text.as_bytes(), cuts, &[]);
            reads(&rt, rt.alloc(), input, limits, Given { lines, end });
        }
    }
}

// Limits that no input below comes near.
const AMPLE: Limits = Limits {
    line: 4,
    whole: 100,
};

// Each call of an input octet by octet, and the lines that are given where that call fails.
const FAILING: [(u64, &[&str]); 7] = [
    (0, &[]),
    (1, &[]),
    (2, &[]),
    (3, &["ab"]),
    (4, &["ab", ""]),
    (5, &["ab", ""]),
    (6, &["ab", "", "c"]),
];

#[test]
fn a_failing_read_ends_the_lines(rt: HostRuntime) {
    let end = Some(LineError::ReadFault);
    for &(call, lines) in &FAILING {
        let input: Input<'_> = (b"ab\n\nc\n", &[1; 6], &[call]);
        reads(&rt, rt.alloc(), input, AMPLE, Given { lines, end });
    }
}

// Lines that came in one call are given before the source is asked again.
#[test]
fn lines_buffered_come_first(rt: HostRuntime) {
    let input: Input<'_> = (b"ab\n\nc\nd", &[], &[1]);
    let want = Given {
        lines: &["ab", "", "c"],
        end: Some(LineError::ReadFault),
    };
    reads(&rt, rt.alloc(), input, AMPLE, want);
}
