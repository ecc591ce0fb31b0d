//! The three ends over made streams, which note each call.
use crate::{Ending, TiedReader, TiedReport, TiedStreams, TiedWriter};
use std::alloc::Global;
use std::cell::RefCell;
use std::io::{self, ErrorKind, Read, Write};
use std::process::Abort;

/// Calls, in order: `r` for a read, `o` and `l` for a write to the output and to the report, in capitals where it failed.
#[derive(Drop)]
struct Calls {
    log: RefCell<Vec<u8>>,
    output: RefCell<Vec<u8>>,
    report: RefCell<Vec<u8>>,
}

impl Calls {
    fn new(alloc: Global) -> Calls {
        Calls {
            log: RefCell::new(Vec::new(alloc)),
            output: RefCell::new(Vec::new(alloc)),
            report: RefCell::new(Vec::new(alloc)),
        }
    }
}

fn noted(log: &RefCell<Vec<u8>>, octets: &[u8]) -> io::Result<()> {
    match log.try_borrow_mut() {
        Ok(mut log) => Ok(log.extend_from_slice(octets)?),
        Err(_) => Err(io::Error::from(ErrorKind::ResourceBusy)),
    }
}

/// An input of so many octets that gives one octet at a time.
#[derive(Drop)]
struct OneByOne<'c> {
    calls: &'c Calls,
    left: usize,
}

impl<'c> Read for OneByOne<'c> {
    fn read(&mut self, into: &mut [u8]) -> io::Result<usize> {
        noted(&self.calls.log, b"r")?;
        if self.left == 0 || into.is_empty() {
            return Ok(0);
        }
        self.left -= 1;
        into[0] = 7;
        Ok(1)
    }
}

/// A writer that takes `largest` octets a call, and `room` in all; the call after these fails.
#[derive(Drop)]
struct Noting<'c> {
    calls: &'c RefCell<Vec<u8>>,
    taken: &'c RefCell<Vec<u8>>,
    name: u8,
    largest: usize,
    room: usize,
}

impl<'c> Write for Noting<'c> {
    fn write(&mut self, piece: &[u8]) -> io::Result<usize> {
        if self.room == 0 {
            noted(self.calls, &[self.name.to_ascii_uppercase()])?;
            return Err(io::Error::from(ErrorKind::Interrupted));
        }
        let count = piece.len().min(self.largest).min(self.room);
        noted(self.calls, &[self.name])?;
        noted(self.taken, &piece[..count])?;
        self.room -= count;
        Ok(count)
    }

    fn flush(&mut self) -> io::Result<()> {
        Ok(())
    }
}

/// How many octets an input has, and an output and a report take, and how many a call takes.
#[derive(Clone, Copy)]
struct Made {
    input: usize,
    output: usize,
    report: usize,
    largest: usize,
}

type Streams<'c> = TiedStreams<OneByOne<'c>, Noting<'c>, Noting<'c>>;

fn streams_over<'c>(
    alloc: Global,
    calls: &'c Calls,
    made: Made,
) -> io::Result<RefCell<Streams<'c>>> {
    let input = OneByOne {
        calls,
        left: made.input,
    };
    let output = Noting {
        calls: &calls.log,
        taken: &calls.output,
        name: b'o',
        largest: made.largest,
        room: made.output,
    };
    let report = Noting {
        calls: &calls.log,
        taken: &calls.report,
        name: b'l',
        largest: made.largest,
        room: made.report,
    };
    Ok(RefCell::new(TiedStreams::new(alloc, input, output, report)?))
}

fn is(cell: &RefCell<Vec<u8>>, wanted: &[u8]) -> bool {
    match cell.try_borrow() {
        Ok(held) => held.as_slice() == wanted,
        Err(_) => false,
    }
}

const SOUND: Made = Made {
    input: 9,
    output: 1_000_000,
    report: 1_000_000,
    largest: 1_000_000,
};

#[test]
fn lines_and_octets_are_out_before_each_read(rt: HostRuntime) -> io::Result<()> {
    let calls = Calls::new(rt.alloc());
    let streams = streams_over(rt.alloc(), &calls, SOUND)?;
    let mut reader = TiedReader::new(&streams);
    let mut output = TiedWriter::new(&streams);
    let mut report = TiedReport::new(&streams);
    let mut into = [0u8; 4];
    for (log, octets, lines) in [
        ("lolr", "abc", "xy"),
        ("lolrlolr", "abcabc", "xyxy"),
        ("lolrlolrlolr", "abcabcabc", "xyxyxy"),
    ] {
        output.write_all(b"ab")?;
        report.write_all(b"x")?;
        output.write_all(b"c")?;
        report.write_all(b"y")?;
        assert_eq!(rt; reader.read(&mut into)?, 1);
        assert!(rt; is(&calls.log, log.as_bytes()));
        assert!(rt; is(&calls.output, octets.as_bytes()));
        assert!(rt; is(&calls.report, lines.as_bytes()));
    }
    Ok(())
}

#[test]
fn pieces_of_any_length_come_whole(rt: HostRuntime) -> io::Result<()> {
    let alloc = rt.alloc();
    let calls = Calls::new(alloc);
    let streams = streams_over(
        alloc,
        &calls,
        Made {
            largest: 50_000,
            ..SOUND
        },
    )?;
    let mut output = TiedWriter::new(&streams);
    let mut report = TiedReport::new(&streams);
    let mut octets = Vec::new(alloc);
    let mut lines = Vec::new(alloc);
    for length in [0usize, 1, 65_535, 131_072, 1, 131_071, 131_073, 300_000, 2] {
        let mut piece = Vec::new(alloc);
        for at in 0..length {
            piece.push((at & 0xff) as u8)?;
        }
        output.write_all(&piece)?;
        octets.extend_from_slice(&piece)?;
        report.write_all(&piece)?;
        lines.extend_from_slice(&piece)?;
    }
    report.flush()?;
    assert!(rt; is(&calls.output, &octets));
    assert!(rt; is(&calls.report, &lines));
    let closed = streams.into_inner().close(0);
    assert_eq!(rt; closed.ending, Ending::Whole);
    Ok(())
}

/// Gives octets, a line, octets and two lines of the run's own, then tries a read, an octet, a line and the end.
fn tried(rt: &impl Abort, alloc: Global, calls: &Calls, at: Made) -> io::Result<Ending> {
    let streams = streams_over(alloc, calls, at)?;
    let mut output = TiedWriter::new(&streams);
    let mut report = TiedReport::new(&streams);
    output.write_all(b"ab")?;
    report.write_all(b"xyz")?;
    output.write_all(b"cd")?;
    report.write_all(b"own")?;
    let mut into = [0u8; 4];
    assert!(rt; TiedReader::new(&streams).read(&mut into).is_err());
    assert!(rt; output.write(b"e").is_err());
    assert!(rt; output.flush().is_err());
    assert_eq!(rt; report.write(b"lines")?, 5);
    Ok(streams.into_inner().close(8).ending)
}

#[test]
fn nothing_is_asked_after_a_failure(rt: HostRuntime) -> io::Result<()> {
    for (output, report, log, octets, lines, ending) in [
        (0, 9, "lO", "", "xyz", Ending::OutputFailed),
        (3, 9, "loO", "abc", "xyz", Ending::OutputFailed),
        (9, 0, "Lo", "ab", "", Ending::LineLost),
        (9, 2, "lLo", "ab", "xy", Ending::LineLost),
        (1, 2, "lLoO", "a", "xy", Ending::LineLost),
        (0, 0, "LO", "", "", Ending::LineLost),
        (9, 3, "loL", "abcd", "xyz", Ending::OwnLineLost),
        (9, 5, "lolL", "abcd", "xyzow", Ending::OwnLineLost),
    ] {
        let calls = Calls::new(rt.alloc());
        let at = Made {
            output,
            report,
            ..SOUND
        };
        assert_eq!(rt; tried(&rt, rt.alloc(), &calls, at)?, ending);
        assert!(rt; is(&calls.log, log.as_bytes()), "{log}");
        assert!(rt; is(&calls.output, octets.as_bytes()), "{log}");
        assert!(rt; is(&calls.report, lines.as_bytes()), "{log}");
    }
    Ok(())
}

#[test]
fn closing_writes_what_is_held(rt: HostRuntime) -> io::Result<()> {
    for (report, own, ending) in [
        (9, 3, Ending::Whole),
        (5, 3, Ending::OwnLineLost),
        (5, 1, Ending::OwnLineLost),
        (5, 0, Ending::LineLost),
        (3, 3, Ending::OwnLineLost),
        (3, 2, Ending::LineLost),
    ] {
        let calls = Calls::new(rt.alloc());
        let streams = streams_over(rt.alloc(), &calls, Made { report, ..SOUND })?;
        TiedWriter::new(&streams).write_all(b"ab")?;
        TiedReport::new(&streams).write_all(b"xyzown")?;
        assert_eq!(rt; streams.into_inner().close(own).ending, ending);
        assert!(rt; is(&calls.output, b"ab"));
    }
    Ok(())
}
