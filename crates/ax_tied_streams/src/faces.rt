//! The ends of tied streams: one to read from, one to write octets to, and one to write lines to.
//!
//! They share the streams by a cell. What a cell holds no contract can tell: that each call borrows the streams and makes the one call of
//! its name is read here, and tested.
use crate::streams::TiedStreams;
use std::cell::RefCell;
use std::io::{self, ErrorKind, Read, Write};

/// The streams are borrowed already: no call of these ends is made inside another.
fn busy() -> io::Error {
    io::Error::from(ErrorKind::ResourceBusy)
}

/// The input.
#[derive(Drop)]
pub struct TiedReader<'s, R: Read + Drop, W: Write + Drop, P: Write + Drop> {
    streams: &'s RefCell<TiedStreams<R, W, P>>,
}

impl<'s, R: Read + Drop, W: Write + Drop, P: Write + Drop> TiedReader<'s, R, W, P> {
    /// The input of these streams. A read writes what is held back first; Err is that a write failed, or that the input did.
    pub fn new(streams: &'s RefCell<TiedStreams<R, W, P>>) -> TiedReader<'s, R, W, P> {
        TiedReader { streams }
    }
}

impl<'s, R: Read + Drop, W: Write + Drop, P: Write + Drop> Read for TiedReader<'s, R, W, P> {
    fn read(&mut self, into: &mut [u8]) -> io::Result<usize> {
        match self.streams.try_borrow_mut() {
            Ok(mut streams) => streams.read(into),
            Err(_) => Err(busy()),
        }
    }
}

/// The output.
#[derive(Drop)]
pub struct TiedWriter<'s, R: Read + Drop, W: Write + Drop, P: Write + Drop> {
    streams: &'s RefCell<TiedStreams<R, W, P>>,
}

impl<'s, R: Read + Drop, W: Write + Drop, P: Write + Drop> TiedWriter<'s, R, W, P> {
    /// The output of these streams. Err is that a write has failed.
    pub fn new(streams: &'s RefCell<TiedStreams<R, W, P>>) -> TiedWriter<'s, R, W, P> {
        TiedWriter { streams }
    }
}

impl<'s, R: Read + Drop, W: Write + Drop, P: Write + Drop> Write for TiedWriter<'s, R, W, P> {
    #[inline(always)]
    fn write(&mut self, piece: &[u8]) -> io::Result<usize> {
        match self.streams.try_borrow_mut() {
            Ok(mut streams) => streams.write_octets(piece),
            Err(_) => Err(busy()),
        }
    }

    fn flush(&mut self) -> io::Result<()> {
        match self.streams.try_borrow_mut() {
            Ok(mut streams) => streams.flush(),
            Err(_) => Err(busy()),
        }
    }
}

/// The report.
#[derive(Drop)]
pub struct TiedReport<'s, R: Read + Drop, W: Write + Drop, P: Write + Drop> {
    streams: &'s RefCell<TiedStreams<R, W, P>>,
}

impl<'s, R: Read + Drop, W: Write + Drop, P: Write + Drop> TiedReport<'s, R, W, P> {
    /// The report of these streams. A write takes octets even where a write has failed, and drops them then.
    pub fn new(streams: &'s RefCell<TiedStreams<R, W, P>>) -> TiedReport<'s, R, W, P> {
        TiedReport { streams }
    }
}

impl<'s, R: Read + Drop, W: Write + Drop, P: Write + Drop> Write for TiedReport<'s, R, W, P> {
    fn write(&mut self, piece: &[u8]) -> io::Result<usize> {
        match self.streams.try_borrow_mut() {
            Ok(mut streams) => Ok(streams.write_lines(piece)),
            Err(_) => Err(busy()),
        }
    }

    fn flush(&mut self) -> io::Result<()> {
        match self.streams.try_borrow_mut() {
            Ok(mut streams) => streams.flush(),
            Err(_) => Err(busy()),
        }
    }
}
