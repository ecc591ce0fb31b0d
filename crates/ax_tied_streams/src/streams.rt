//! The three streams, and what is held back for two of them.
ghost use Rattle.std.specs.Prelude.{◌≡◌, ℕ, ◌+◌, ◌<◌, ◌≤◌, List, [], ◌∷◌, ◌++◌, Option, None, Some, length, take, IsNone, IsSome, IfOk, IsErr, OnOk, OnErr, vec_capacity};
ghost use Rattle.std.specs.Io.{ReadsAtMost};
ghost use Rattle.std.specs.Io.KnownBytes.{Appends, Keeps, ReadConsumes};
ghost use Rattle.ax_tied_streams.specs.declared.streams.TheConstants.{ROOM};

use crate::puts::{Failed, put_all};
use std::alloc::Global;
use std::io::{self, ErrorKind, Read, Write};

/// The octets of output, and those of lines, that are held back at most: more than are read at once, by the longest block, so that a
/// command whose output isn't longer than its input writes once for each read.
const ROOM: usize = 131_072;

/// How streams ended.
#[derive(Clone, Copy, Debug, PartialEq, Eq)]
pub enum Ending {
    /// All that was given is out.
    Whole,
    /// A write to the output failed before one to the report.
    OutputFailed,
    /// A line before the run's own last lines isn't out.
    LineLost,
    /// Of the run's own last lines not all is out; all else is.
    OwnLineLost,
}

/// The streams at their end.
#[derive(Drop)]
pub struct Closed<W: Write + Drop, P: Write + Drop> {
    pub ending: Ending,
    pub output: W,
    pub report: P,
}

/// An input, an output and a report, and what is held back for the last two. A line stands before the octets that were given after it,
/// so where lines can't be written the octets given after the first of them are dropped.
#[derive(Drop)]
pub struct TiedStreams<R: Read + Drop, W: Write + Drop, P: Write + Drop> {
    input: R,
    output: W,
    report: P,
    octets: Vec<u8>,
    lines: Vec<u8>,
    /// How many of the octets were given before all of the lines.
    before: usize,
    /// How many octets of the lines were given before the last of the octets.
    leading: usize,
    /// Where a write has failed, how many octets of lines were given that aren't out.
    lost: u128,
    failed: Option<Failed>,
    ghost before_within: { before ≤ length octets.items },
    ghost leading_within: { leading ≤ length lines.items },
    ghost octets_within: { length octets.items ≤ ROOM },
    ghost lines_within: { length lines.items ≤ ROOM },
    ghost octets_room: { ROOM ≤ vec_capacity octets },
    ghost lines_room: { ROOM ≤ vec_capacity lines },
}

fn broken() -> io::Error {
    io::Error::from(ErrorKind::BrokenPipe)
}

impl<R: Read + Drop, W: Write + Drop, P: Write + Drop> TiedStreams<R, W, P> {
    ghost use Rattle.ax_tied_streams.specs.Histories.{Piece};
    ghost use Rattle.ax_tied_streams.specs.Histories.Piece.{to_output, to_report};
    ghost use Rattle.ax_tied_streams.specs.Orders.{GoesOn, HasGot, HasEnded, TellsEnding, after_lines, after_nothing, after_octets};
    ghost use Rattle.ax_tied_streams.specs.Streams.{streams_of};
    ghost use Rattle.ax_tied_streams.specs.Held.{HoldsLines, IsStill, PutsHeld, emptied};

    /// Those streams, with room for what is held back. An `Err` is want of memory.
    pub fn new(alloc: Global, input: R, output: W, report: P) -> io::Result<TiedStreams<R, W, P>>
        ensures begins { IfOk result (λ s. HasGot (W.contents output) (P.contents report) [] (streams_of s)) }
        ensures input { IfOk result (λ s. (streams_of s).input ≡ R.remaining input) }
        ensures sound { IfOk result (λ s. (streams_of s).failed ≡ None) }
    {
        Ok(TiedStreams {
            input,
            output,
            report,
            octets: Vec::with_capacity(alloc, ROOM)?,
            lines: Vec::with_capacity(alloc, ROOM)?,
            before: 0,
            leading: 0,
            lost: 0,
            failed: None,
        })
    }

    /// Takes octets for the output, and answers how many. They are held back; where they don't fit, what is held back is written first.
    /// Once a write has failed none is taken.
    #[inline(always)]
    pub fn write_octets(&mut self, piece: &[u8]) -> io::Result<usize>
        ensures within { IfOk result (λ n. n ≤ length piece.now) }
        ensures some { IfOk result (λ n. 0 < length piece.now → 0 < n) }
        ensures sound { OnOk result ((streams_of self.new).failed ≡ None) }
        ensures failed { OnErr result (IsSome (streams_of self.new).failed) }
        ensures history { GoesOn (after_octets piece.now result) (streams_of self.old) (streams_of self.new) }
        ensures stays { IsSome (streams_of self.old).failed → IsStill (streams_of self.old) (streams_of self.new) }
        ensures input { (streams_of self.new).input ≡ (streams_of self.old).input }
    {
        if piece.len() <= ROOM - self.octets.len() {
            return self.hold_octets(piece);
        }
        self.write_held();
        self.hold_octets(&piece[..piece.len().min(ROOM)])
    }

    /// Takes all these octets, unless a write has failed.
    #[inline(always)]
    fn hold_octets(&mut self, piece: &[u8]) -> io::Result<usize>
        requires fits { length self.old.octets.items + length piece.now ≤ ROOM }
        ensures whole { IfOk result (λ n. n ≡ length piece.now) }
        ensures sound { OnOk result (self.old.failed ≡ None) }
        ensures failed { OnErr result (IsSome self.old.failed) }
        ensures holds { OnOk result (streams_of self.new ≡ record (streams_of self.old) {
          octets = self.old.octets.items ++ piece.now;
          leading = length self.old.lines.items;
        }) }
        ensures holds_nothing { OnErr result (streams_of self.new ≡ streams_of self.old) }
    {
        if self.failed.is_some() {
            return Err(broken());
        }
        self.octets.extend_from_slice(piece)?;
        self.leading = self.lines.len();
        Ok(piece.len())
    }

    /// Takes octets of lines for the report, and answers how many. They are held back; where they don't fit, what is held back is
    /// written first. Once a write has failed all are taken, and dropped.
    pub fn write_lines(&mut self, piece: &[u8]) -> usize
        ensures within { result ≤ length piece.now }
        ensures some { 0 < length piece.now → 0 < result }
        ensures history { GoesOn (after_lines piece.now result) (streams_of self.old) (streams_of self.new) }
        ensures stays { IsSome (streams_of self.old).failed → IsStill (streams_of self.old) (streams_of self.new) }
        ensures input { (streams_of self.new).input ≡ (streams_of self.old).input }
    {
        if piece.len() <= ROOM - self.lines.len() {
            return self.hold_lines(piece);
        }
        self.write_held();
        self.hold_lines(&piece[..piece.len().min(ROOM)])
    }

    /// Takes all these octets of lines.
    fn hold_lines(&mut self, piece: &[u8]) -> usize
        requires fits { length self.old.lines.items + length piece.now ≤ ROOM }
        ensures whole { result ≡ length piece.now }
        ensures holds { HoldsLines (streams_of self.old) (streams_of self.new) piece.now }
    {
        if self.failed.is_some() {
            self.lost = self.lost.saturating_add(piece.len() as u128);
            return piece.len();
        }
        if self.lines.is_empty() {
            self.before = self.octets.len();
        }
        // There is room, so that no memory is wanted.
        let _ = self.lines.extend_from_slice(piece);
        piece.len()
    }

    /// Writes all that is held back. An `Err` says that a write has failed, now or before.
    pub fn flush(&mut self) -> io::Result<()>
        ensures sound { OnOk result ((streams_of self.new).failed ≡ None) }
        ensures failed { OnErr result (IsSome (streams_of self.new).failed) }
        ensures octets { (streams_of self.new).octets ≡ [] }
        ensures lines { (streams_of self.new).lines ≡ [] }
        ensures history { GoesOn after_nothing (streams_of self.old) (streams_of self.new) }
        ensures stays { IsSome (streams_of self.old).failed → IsStill (streams_of self.old) (streams_of self.new) }
        ensures input { (streams_of self.new).input ≡ (streams_of self.old).input }
    {
        self.write_held();
        if self.failed.is_some() {
            return Err(broken());
        }
        Ok(())
    }

    /// Writes all that is held back, and then asks the input once. Where a write has failed, now or before, the input isn't asked.
    #[inline(never)]
    #[tactic(auto, using(crate::proofs::Writes::got_asked))]
    pub fn read(&mut self, into: &mut [u8]) -> io::Result<usize>
        ensures bound { ReadsAtMost result into.new }
        ensures bytes { ReadConsumes (streams_of self.old).input (streams_of self.new).input result into.new }
        ensures sound { OnOk result ((streams_of self.new).failed ≡ None) }
        ensures octets { (streams_of self.new).octets ≡ [] }
        ensures lines { (streams_of self.new).lines ≡ [] }
        ensures history { GoesOn after_nothing (streams_of self.old) (streams_of self.new) }
        ensures stays { IsSome (streams_of self.old).failed → IsStill (streams_of self.old) (streams_of self.new) }
    {
        self.flush()?;
        self.input.read(into)
    }

    /// Writes all that is held back, and gives output and report back. The last `own` octets of lines are those of the run's own last
    /// lines, which belong to no block.
    pub fn close(mut self, own: usize) -> Closed<W, P>
        ensures history { (output report : Option (List ℕ)) (history : List Piece) → HasGot output report history (streams_of self)
            → HasEnded output report (W.contents result.output) (P.contents result.report) history own result.ending }
        ensures failed { IsSome (streams_of self).failed → TellsEnding (streams_of self).failed (streams_of self).lost own result.ending }
        ensures stays { IsSome (streams_of self).failed → ((streams_of self).output ≡ W.contents result.output) × ((streams_of self).report ≡ P.contents result.report) }
    {
        self.write_held();
        let ending = self.ending(own);
        let TiedStreams {
            input: _input,
            output,
            report,
            octets: _octets,
            lines: _lines,
            before: _before,
            leading: _leading,
            lost: _lost,
            failed: _failed,
        } = self;
        Closed {
            ending,
            output,
            report,
        }
    }

    fn ending(&self, own: usize) -> Ending
        ensures { TellsEnding self.now.failed self.now.lost own result }
    {
        match self.failed {
            None => Ending::Whole,
            Some(Failed::Output) => Ending::OutputFailed,
            Some(Failed::Report | Failed::Both) if (own as u128) < self.lost => Ending::LineLost,
            Some(Failed::Report | Failed::Both) => Ending::OwnLineLost,
        }
    }

    /// Writes all that is held back, unless a write has failed. It stands apart, so that octets are held without a call.
    #[inline(never)]
    fn write_held(&mut self)
        ensures history { GoesOn after_nothing (streams_of self.old) (streams_of self.new) }
        ensures octets { (streams_of self.new).octets ≡ [] }
        ensures lines { (streams_of self.new).lines ≡ [] }
        ensures input { (streams_of self.new).input ≡ (streams_of self.old).input }
        ensures stays { IsSome (streams_of self.old).failed → IsStill (streams_of self.old) (streams_of self.new) }
        ensures lost { IsSome (streams_of self.old).failed → (streams_of self.new).lost ≡ (streams_of self.old).lost }
    {
        if self.failed.is_none() {
            self.put_held();
        }
        self.drop_held();
    }

    fn drop_held(&mut self)
        ensures { streams_of self.new ≡ emptied (streams_of self.old) }
    {
        self.before = 0;
        self.leading = 0;
        self.octets.clear();
        self.lines.clear();
    }

    /// Writes what is held back, and keeps which write failed.
    fn put_held(&mut self)
        requires { self.old.failed ≡ None }
        ensures { PutsHeld (streams_of self.old) (streams_of self.new) }
    {
        let stop = put_all(
            &mut self.output,
            &mut self.report,
            &self.octets,
            &self.lines,
            self.before,
            self.leading,
        );
        if let Some(stop) = stop {
            self.failed = Some(stop.failed);
            self.lost = stop.lost as u128;
        }
    }
}
