//! The program `asterix`: it makes the real library and the real streams, and leaves all else to `run`.
#![tactic(auto)]

ghost use Rattle.std.specs.Prelude.{◌≡◌, Some, None};
ghost use Rattle.ax_command.specs.declared.outcome.Outcome.TheVariants.{WriteFault, ReportFault};
ghost use Rattle.ax_command.specs.Status.{status_of};
ghost use Rattle.ax_tied_streams.specs.declared.streams.Ending.TheVariants.{Whole, OutputFailed, LineLost, OwnLineLost};

mod own_lines;

use crate::own_lines::own_lines;
use ax_app::{Outcome, run};
use ax_command::write_lines;
use ax_endpoints::{FolderLibrary, ReadSource, WriteSink};
use ax_tied_streams::{Closed, Ending, TiedReader, TiedReport, TiedStreams, TiedWriter};
use std::alloc::Global;
use std::cell::RefCell;
use std::env;
use std::io::{self, BufReader, ErrorKind, Stderr, Stdin, Stdout, Write};
use std::process::ExitCode;

/// The octets of standard input that are read at once, at most.
const INPUT_BUFFER: usize = 65_536;

/// The words after the program's name. Arguments that aren't UTF-8 are no words, so `run` answers Usage. An `Err` is want
/// of memory.
fn words_of(alloc: Global, rt: &HostRuntime) -> io::Result<Vec<String>> {
    match env::args(rt) {
        Ok(args) => Ok(args.skip(1).collect::<Vec<String>>(alloc)?),
        Err(error) if error.kind() == ErrorKind::OutOfMemory => Err(error),
        Err(_) => Ok(Vec::new(alloc)),
    }
}

/// Writes the lines of an outcome. A report that fails leaves it.
fn tell<P: Write + Drop>(report: P, outcome: &Outcome) {
    let _ = write_lines(&mut WriteSink::new(report), outcome);
}

/// Runs over the streams, standard input through a buffer.
fn run_over(
    alloc: Global,
    words: &Vec<String>,
    rt: HostRuntime,
    streams: &RefCell<TiedStreams<Stdin, Stdout, Stderr>>,
) -> Outcome {
    let input = BufReader::with_capacity(alloc, INPUT_BUFFER, TiedReader::new(streams));
    let Ok(input) = input else {
        tell(TiedReport::new(streams), &Outcome::OutOfMemory);
        return Outcome::OutOfMemory;
    };
    run(
        alloc,
        words,
        &mut FolderLibrary::new(rt),
        &mut ReadSource::new(input),
        &mut WriteSink::new(TiedWriter::new(streams)),
        &mut WriteSink::new(TiedReport::new(streams)),
    )
}

/// The outcome in place of the run's own, where not all of its output, or of the lines before its own last ones, is out.
fn late_outcome(ending: Ending) -> Option<Outcome>
    ensures output { ending ≡ OutputFailed → result ≡ Some WriteFault }
    ensures line { ending ≡ LineLost → result ≡ Some ReportFault }
    ensures own_line { ending ≡ OwnLineLost → result ≡ None }
    ensures whole { ending ≡ Whole → result ≡ None }
{
    match ending {
        Ending::OutputFailed => Some(Outcome::WriteFault),
        Ending::LineLost => Some(Outcome::ReportFault),
        Ending::OwnLineLost | Ending::Whole => None,
    }
}

/// The program's status. The line of an outcome that takes the place of the run's own is written, once.
fn status_at_end<W: Write + Drop, P: Write + Drop>(outcome: &Outcome, closed: Closed<W, P>) -> u8
    ensures output { closed.ending ≡ OutputFailed → result ≡ status_of WriteFault }
    ensures line { closed.ending ≡ LineLost → result ≡ status_of ReportFault }
    ensures own_line { closed.ending ≡ OwnLineLost → result ≡ status_of outcome.now }
    ensures whole { closed.ending ≡ Whole → result ≡ status_of outcome.now }
{
    let Some(late) = late_outcome(closed.ending) else {
        return outcome.status();
    };
    tell(closed.report, &late);
    late.status()
}

fn main(rt: HostRuntime) -> ExitCode {
    let alloc = rt.alloc();
    let streams = TiedStreams::new(alloc, rt.stdin(), rt.stdout(), rt.stderr());
    let (Ok(words), Ok(streams)) = (words_of(alloc, &rt), streams) else {
        tell(rt.stderr(), &Outcome::OutOfMemory);
        return ExitCode::from(Outcome::OutOfMemory.status());
    };
    let streams = RefCell::new(streams);
    let outcome = run_over(alloc, &words, rt, &streams);
    // Where memory is wanting, lines that are lost count as lines of blocks.
    let own = own_lines(alloc, &outcome).unwrap_or(0);
    let closed = streams.into_inner().close(own);
    ExitCode::from(status_at_end(&outcome, closed))
}
