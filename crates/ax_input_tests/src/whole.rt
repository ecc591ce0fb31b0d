//! Buffers filled and pieces written whole, however their calls are cut.

use crate::checks::{counts, holds};
use crate::outside::{Input, source};
use ax_outside::{MemSink, MemSource, SinkFailed, fill, write_all_of};
use std::process::Abort;

// Six octets, and the cuts of their reads.
const INPUT: Input<'static> = (b"abcdef", &[2, 3, 1], &[]);

// Asserts how much of the buffer is filled.
fn fills(rt: &impl Abort, source: &mut MemSource, buffer: &mut [u8; 4], wanted: usize) {
    counts(rt, fill(source, buffer).ok(), Some(wanted), "the buffer");
}

// Asserts whether the whole piece is written.
fn writes(rt: &impl Abort, sink: &mut MemSink, piece: &[u8], wanted: Result<(), SinkFailed>) {
    assert_eq!(rt; write_all_of(sink, piece), wanted);
}

// The source fills a buffer of 4 and then part of it, and a sink of one octet a call takes both.
#[test]
fn cuts_leave_no_trace(rt: HostRuntime) {
    let alloc = rt.alloc();
    let mut source = source(&rt, alloc, INPUT);
    let mut sink = MemSink::new(alloc, 6, 1, Vec::new(alloc)).expect(&rt, "memory");
    let mut buffer = [0u8; 4];
    fills(&rt, &mut source, &mut buffer, 4);
    holds(&rt, &buffer, b"abcd", "the buffer");
    writes(&rt, &mut sink, &buffer, Ok(()));
    fills(&rt, &mut source, &mut buffer, 2);
    writes(&rt, &mut sink, &buffer[..2], Ok(()));
    holds(&rt, sink.written(), b"abcdef", "the sink");
    writes(&rt, &mut sink, &buffer, Err(SinkFailed));
}
