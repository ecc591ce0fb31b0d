//! A sink in memory, whose writes are cut and fail by their numbers.

use crate::checks::{counts, holds, tells};
use ax_outside::{MemSink, Sink};
use std::alloc::Global;
use std::process::Abort;

// A room of five octets, two a call, call 1 failing.
fn sink(rt: &impl Abort, alloc: Global) -> MemSink {
    let failing = vec![in alloc; 1].expect(rt, "memory");
    MemSink::new(alloc, 5, 2, failing).expect(rt, "memory")
}

// Each call's piece, its answer, and what is held after it.
const WRITES: [(&str, Option<usize>, &str); 6] = [
    ("abc", Some(2), "ab"),
    ("abc", None, "ab"),
    ("c", Some(1), "abc"),
    ("defg", Some(2), "abcde"),
    ("f", None, "abcde"),
    ("", Some(0), "abcde"),
];

fn answers(rt: &impl Abort, sink: &mut MemSink, piece: &str, wanted: Option<usize>, held: &str) {
    counts(rt, sink.write(piece.as_bytes()).ok(), wanted, piece);
    holds(rt, sink.written(), held.as_bytes(), piece);
}

#[test]
fn calls_are_cut_and_fail_by_number(rt: HostRuntime) {
    let mut sink = sink(&rt, rt.alloc());
    for &(piece, wanted, held) in &WRITES {
        answers(&rt, &mut sink, piece, wanted, held);
    }
    tells(&rt, sink.faults(), 2, "faults");
}
