//! A sink over a real file, and over a writer that fails.

use crate::checks::{counts, holds, tells};
use ax_outside::{Sink, WriteSink};
use std::fs;
use std::io::{self, ErrorKind, Write};
use std::process::Abort;

// Each piece, and how many octets of it are taken.
const WRITES: [(&str, usize); 3] = [("abc", 3), ("", 0), ("d", 1)];

fn takes<W: Write>(rt: &impl Abort, sink: &mut WriteSink<W>, piece: &str, count: usize) {
    counts(rt, sink.write(piece.as_bytes()).ok(), Some(count), piece);
}

// What is written stands in a real file.
#[test]
fn a_piece_stands_in_the_file(rt: HostRuntime) {
    let created = fs::create(&rt, "output").expect(&rt, "a file");
    let mut sink = WriteSink::new(created);
    for &(piece, count) in &WRITES {
        takes(&rt, &mut sink, piece, count);
    }
    tells(&rt, sink.faults(), 0, "faults");
    let file = fs::read(&rt, "output").expect(&rt, "the file");
    holds(&rt, &file, b"abcd", "the file");
}

// A write to a file that was opened to be read is a counted fault.
#[test]
fn a_file_to_be_read_takes_nothing(rt: HostRuntime) {
    fs::write(&rt, "readable", "abcd").expect(&rt, "a file");
    let opened = fs::open(&rt, "readable").expect(&rt, "a file");
    let mut unwritable = WriteSink::new(opened);
    counts(&rt, unwritable.write(b"e").ok(), None, "e");
    tells(&rt, unwritable.faults(), 1, "faults");
}

/// A writer whose first call is interrupted, and which takes one octet at each later one.
#[derive(Drop)]
struct InterruptedFirst {
    was_called: bool,
}

impl Write for InterruptedFirst {
    fn write(&mut self, piece: &[u8]) -> io::Result<usize> {
        if !self.was_called {
            self.was_called = true;
            return Err(io::Error::from(ErrorKind::Interrupted));
        }
        Ok(piece.len().min(1))
    }

    fn flush(&mut self) -> io::Result<()> {
        Ok(())
    }
}

// A write that fails, interrupted ones too, isn't tried again: it is counted. One that takes a part of a piece is none that failed.
#[test]
fn a_failed_write_is_not_tried_again(rt: HostRuntime) {
    let mut sink = WriteSink::new(InterruptedFirst { was_called: false });
    counts(&rt, sink.write(b"abc").ok(), None, "the first write");
    tells(&rt, sink.faults(), 1, "faults");
    counts(&rt, sink.write(b"abc").ok(), Some(1), "the second write");
    tells(&rt, sink.faults(), 1, "faults");
}
