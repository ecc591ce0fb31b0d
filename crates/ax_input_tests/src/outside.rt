//! Inputs in memory, whose reads are cut and fail by their numbers.

use ax_outside::MemSource;
use std::alloc::Global;
use std::process::Abort;

/// The octets of an input, the most octets that each read gives, in turn, and the numbers of the reads that fail.
pub(crate) type Input<'a> = (&'a [u8], &'a [u32], &'a [u64]);

pub(crate) fn source(
    rt: &impl Abort,
    alloc: Global,
    (octets, cuts, failing): Input<'_>,
) -> MemSource {
    let octets = Vec::from_slice(alloc, octets).expect(rt, "memory");
    let cuts = Vec::from_slice(alloc, cuts).expect(rt, "memory");
    let failing = Vec::from_slice(alloc, failing).expect(rt, "memory");
    MemSource::new(octets, cuts, failing)
}
