//! The top call.
ghost use Rattle.std.specs.Prelude.{◌≡◌};
ghost use Rattle.ax_words.specs.Words.{IsInBounds};
ghost use Rattle.ax_app.specs.Channels.{changes};
ghost use Rattle.ax_app.specs.Gateway.{IsRunOf, Obeys, ObeysLine, ObeysLoaded, outside, texts};
ghost use Rattle.ax_app.specs.Loaded.{given_of, AreInRange, IsLoadedFor};

use crate::channels::Channels;
use crate::loading::{Loaded, load};
use crate::tasks::{do_task, files};
use ax_command::{Outcome, write_lines};
use ax_endpoints::{Library, Sink, Source};
use ax_words::{Line, WordsError, read_words};
use std::alloc::Global;

/// Does what a line says over what its files were loaded into.
fn obey_loaded<S: Source, K: Sink, R: Sink>(
    alloc: Global,
    line: &Line,
    loaded: &Loaded,
    io: Channels<'_, S, K, R>,
) -> Outcome
    requires bounds { IsInBounds line.now }
    requires in_range { AreInRange (given_of loaded.now).specs }
    requires loaded { IsLoadedFor line.now loaded.now }
    ensures { ObeysLoaded line.now (given_of loaded.now) (changes S.Source K.Sink R.Sink io.entry io.exit) result }
{
    match do_task(alloc, line, loaded, io) {
        Ok(outcome) => outcome,
        Err(stop) => Outcome::from(stop),
    }
}

/// Does what a line says: first its files, then its task.
fn obey_line<L: Library, S: Source, K: Sink, R: Sink>(
    alloc: Global,
    line: &Line,
    library: &mut L,
    io: Channels<'_, S, K, R>,
) -> Outcome
    requires { IsInBounds line.now }
    ensures obeys { ObeysLine line.now (outside L.Library library.old library.new (changes S.Source K.Sink R.Sink io.entry io.exit)) result }
    ensures keeps { L.files library.new ≡ L.files library.old }
{
    match load(alloc, library, files(line)) {
        Ok(loaded) => obey_loaded(alloc, line, &loaded, io),
        Err(stop) => Outcome::from(stop),
    }
}

/// Does what the words say: first the words, then the files, then the task.
fn obey<L: Library, S: Source, K: Sink, R: Sink>(
    alloc: Global,
    words: &Vec<String>,
    library: &mut L,
    io: Channels<'_, S, K, R>,
) -> Outcome
    ensures obeys { Obeys (texts words.now.items) (outside L.Library library.old library.new (changes S.Source K.Sink R.Sink io.entry io.exit)) result }
    ensures keeps { L.files library.new ≡ L.files library.old }
{
    match read_words(alloc, words) {
        Ok(line) => obey_line(alloc, &line, library, io),
        Err(WordsError::Usage) => Outcome::Usage,
        Err(WordsError::OutOfMemory) => Outcome::OutOfMemory,
    }
}

/// Does what the words say, and answers how that ended. Usage comes exactly where the words have no shape, but that want of
/// memory may stand in its place, since reading the words takes memory. Where memory is wanting, the source is untouched and
/// nothing was written, but of the commands that take memory once they read: `show`, `text`, `build`, `expand` and `convert`.
/// Before the lines of the outcome one fault at most is counted, of the object that the outcome names. Of a source that doesn't
/// tell what it gives, the octets that were taken are an input of which the outcome and both outputs are those of the run.
pub fn run<L: Library, S: Source, K: Sink, R: Sink>(
    alloc: Global,
    words: &Vec<String>,
    library: &mut L,
    source: &mut S,
    out: &mut K,
    report: &mut R,
) -> Outcome
    ensures run { IsRunOf L.Library S.Source K.Sink R.Sink words.now.items
        library.old library.new source.old source.new out.old out.new report.old report.new result }
    ensures keeps { L.files library.new ≡ L.files library.old }
{
    let io = Channels {
        source,
        out,
        report: &mut *report,
    };
    let outcome = obey(alloc, words, library, io);
    let _ = write_lines(report, &outcome);
    outcome
}
