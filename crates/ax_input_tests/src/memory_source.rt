//! A source in memory, whose reads are cut and fail by their numbers.

use crate::checks::{counts, holds, tells};
use crate::outside::{Input, source};
use ax_outside::{MemSource, Source};
use std::process::Abort;

// Six octets, the cuts of their reads, and the read that fails.
const INPUT: Input<'static> = (b"abcdef", &[2, 9, 0], &[1]);

// Each call's answer, with the front of the buffer.
const READS: [(Option<usize>, &str); 5] = [
    (Some(2), "ab"),
    (None, "ab"),
    (Some(1), "cb"),
    (Some(3), "de"),
    (Some(0), "de"),
];

fn answers(
    rt: &impl Abort,
    source: &mut MemSource,
    part: &mut [u8; 4],
    wanted: Option<usize>,
    front: &str,
) {
    counts(rt, source.read(part).ok(), wanted, front);
    holds(rt, &part[..2], front.as_bytes(), front);
}

#[test]
fn calls_are_cut_and_fail_by_number(rt: HostRuntime) {
    let mut source = source(&rt, rt.alloc(), INPUT);
    let mut part = [0u8; 4];
    for &(wanted, front) in &READS {
        answers(&rt, &mut source, &mut part, wanted, front);
    }
    tells(&rt, source.faults(), 1, "faults");
}
