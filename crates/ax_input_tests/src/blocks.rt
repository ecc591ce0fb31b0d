//! Data blocks of inputs, however these are cut and fail.

use crate::outside::{Input, source};
use ax_blocks::{BlockReader, NextError};
use ax_outside::MemSource;
use std::alloc::Global;
use std::process::Abort;

// Two blocks of ten octets.
const BLOCKS: [u8; 20] = [
    0x22, 0x00, 0x0A, 0xE0, 0x19, 0x0C, 0x01, 0x00, 0x00, 0x80, //
    0x22, 0x00, 0x0A, 0xE0, 0x19, 0x0C, 0x01, 0x00, 0x00, 0x80,
];

const BODY: [u8; 7] = [0xE0, 0x19, 0x0C, 0x01, 0x00, 0x00, 0x80];

// Whether the reader gives one of those blocks next.
fn gives_block(reader: &mut BlockReader, source: &mut MemSource) -> bool {
    match reader.next(source) {
        Ok(Some(raw)) => raw.category == 0x22 && raw.body == BODY.as_slice(),
        _ => false,
    }
}

// Whether the reader ends so, and again.
fn ends(reader: &mut BlockReader, source: &mut MemSource, end: Option<NextError>) -> bool {
    for _ in 0..2 {
        let same = match reader.next(source) {
            Ok(Some(_)) => false,
            Ok(None) => end.is_none(),
            Err(error) => end == Some(error),
        };
        if !same {
            return false;
        }
    }
    true
}

/// Asserts that a reader with that limit gives so many of those blocks of the input, and then ends so.
fn gives(
    rt: &impl Abort,
    alloc: Global,
    input: Input<'_>,
    limit: u64,
    (blocks, end): (u64, Option<NextError>),
) {
    let mut reader = BlockReader::new(alloc, limit).expect(rt, "memory");
    let mut source = source(rt, alloc, input);
    for _ in 0..blocks {
        assert!(rt; gives_block(&mut reader, &mut source));
    }
    assert!(rt; ends(&mut reader, &mut source, end));
}

const CUTS: [&[u32]; 3] = [&[], &[1; 20], &[2, 3, 5, 2, 3, 5]];

// The limit on the input of two blocks, how many are given, and the end.
const LIMITS: [(u64, u64, Option<NextError>); 5] = [
    (9, 0, Some(NextError::InputTooLong)),
    (10, 1, Some(NextError::InputTooLong)),
    (19, 1, Some(NextError::InputTooLong)),
    (20, 2, None),
    (u64::MAX, 2, None),
];

#[test]
fn each_cut_gives_the_same(rt: HostRuntime) {
    for &cuts in &CUTS {
        for &(limit, blocks, end) in &LIMITS {
            gives(&rt, rt.alloc(), (&BLOCKS, cuts, &[]), limit, (blocks, end));
        }
    }
}

// Octet by octet, the failing call being each in turn: the blocks before it are given.
#[test]
fn a_failing_read_ends_the_input(rt: HostRuntime) {
    let end = Some(NextError::ReadFault);
    for call in 0..21u64 {
        let input: Input<'_> = (&BLOCKS, &[1; 21], &[call]);
        gives(&rt, rt.alloc(), input, 20, (call / 10, end));
    }
}

// The octets, the limit on them, and the end, before which there is no block.
const FRAMING: [(&[u8], u64, Option<NextError>); 11] = [
    (&[], 0, None),
    (&[0x30, 0x00, 0x03], 3, Some(NextError::BadLen)),
    (&[0x30, 0x00, 0x00], 3, Some(NextError::BadLen)),
    (&[0x3E, 0x00, 0x03], 3, Some(NextError::BadLen)),
    (&[0x30, 0x00, 0x03], 2, Some(NextError::InputTooLong)),
    (&[0x30], 1, Some(NextError::EndsInHeader { bit: 8 })),
    (&[0x30, 0x00], 2, Some(NextError::EndsInHeader { bit: 16 })),
    (&[0x30, 0x00], 1, Some(NextError::InputTooLong)),
    (
        &[0x30, 0x00, 0x06],
        3,
        Some(NextError::EndsInBlock { bit: 24 }),
    ),
    (
        &[0x30, 0x00, 0x06, 0x80, 0x19],
        5,
        Some(NextError::EndsInBlock { bit: 40 }),
    ),
    (
        &[0x30, 0x00, 0x06, 0x80, 0x19],
        4,
        Some(NextError::InputTooLong),
    ),
];

#[test]
fn faults_of_framing(rt: HostRuntime) {
    for &(octets, limit, end) in &FRAMING {
        gives(&rt, rt.alloc(), (octets, &[2], &[]), limit, (0, end));
    }
}

fn longest(rt: &impl Abort, alloc: Global) -> Vec<u8> {
    let mut octets = vec![in alloc; 0x30, 0xFF, 0xFF].expect(rt, "memory");
    octets.resize(65_535, 0x80).expect(rt, "memory");
    octets
}

/// Asserts that the reader gives that block next.
fn gives_longest(rt: &impl Abort, reader: &mut BlockReader, source: &mut MemSource) {
    match reader.next(source) {
        Ok(Some(raw)) => {
            assert_eq!(rt; raw.category, 0x30);
            assert_eq!(rt; raw.body.len(), 65_532);
            assert_eq!(rt; raw.body[65_531], 0x80);
        }
        _ => assert!(rt; false),
    }
}

#[test]
fn the_longest_block(rt: HostRuntime) {
    let alloc = rt.alloc();
    let octets = longest(&rt, alloc);
    let mut source = source(&rt, alloc, (&octets, &[1000, 1], &[]));
    let mut reader = BlockReader::new(alloc, 65_535).expect(&rt, "memory");
    gives_longest(&rt, &mut reader, &mut source);
    assert!(rt; ends(&mut reader, &mut source, None));
}
