//! A source over a real file, and over a reader that fails.

use crate::checks::{counts, holds, tells};
use ax_outside::{ReadSource, Source};
use std::fs;
use std::io::{self, ErrorKind, Read};
use std::process::Abort;
use std::rt::Files;

// A real file of five octets.
fn file<R: Files + Abort>(rt: &R) -> R::File {
    fs::write(rt, "input", "abcde").expect(rt, "a file");
    fs::open(rt, "input").expect(rt, "a file")
}

// What each read answers, and what stands in the buffer then.
const READS: [(usize, &str); 3] = [(3, "abc"), (2, "dec"), (0, "dec")];

fn answers<R: Read>(
    rt: &impl Abort,
    source: &mut ReadSource<R>,
    part: &mut [u8; 3],
    count: usize,
    octets: &str,
) {
    counts(rt, source.read(part).ok(), Some(count), octets);
    holds(rt, part, octets.as_bytes(), octets);
}

// A real file is read to its end in pieces.
#[test]
fn a_file_is_read_to_its_end(rt: HostRuntime) {
    let mut source = ReadSource::new(file(&rt));
    let mut part = [0u8; 3];
    for &(count, octets) in &READS {
        answers(&rt, &mut source, &mut part, count, octets);
    }
    tells(&rt, source.taken(), 5, "octets taken");
    tells(&rt, source.faults(), 0, "faults");
}

// A folder in the place of a file is a counted fault.
#[test]
fn a_folder_is_a_fault(rt: HostRuntime) {
    let opened = fs::open(&rt, ".").expect(&rt, "a folder");
    let mut folder = ReadSource::new(opened);
    counts(&rt, folder.read(&mut [0u8; 3]).ok(), None, "a folder");
    tells(&rt, folder.taken(), 0, "octets taken");
    tells(&rt, folder.faults(), 1, "faults");
}

/// A reader whose first call is interrupted, and whose later ones give two octets.
#[derive(Drop)]
struct InterruptedFirst {
    was_called: bool,
}

impl Read for InterruptedFirst {
    fn read(&mut self, into: &mut [u8]) -> io::Result<usize> {
        if !self.was_called {
            self.was_called = true;
            return Err(io::Error::from(ErrorKind::Interrupted));
        }
        if into.len() < 2 {
            return Ok(0);
        }
        into[0] = b'x';
        into[1] = b'y';
        Ok(2)
    }
}

// A read that fails, interrupted ones too, isn't asked for again: it is counted, and what the reader has stays for the next read.
#[test]
fn a_failed_read_is_not_tried_again(rt: HostRuntime) {
    let mut source = ReadSource::new(InterruptedFirst { was_called: false });
    let mut part = [0u8; 3];
    counts(&rt, source.read(&mut part).ok(), None, "the first read");
    tells(&rt, source.faults(), 1, "faults");
    tells(&rt, source.taken(), 0, "octets taken");
    counts(&rt, source.read(&mut part).ok(), Some(2), "the second read");
    holds(&rt, &part[..2], b"xy", "the second read");
    tells(&rt, source.faults(), 1, "faults");
    tells(&rt, source.taken(), 2, "octets taken");
}
