//! One run in memory: the files that it finds, how its outside is cut and fails, and what it leaves.

use crate::conversions::conversion_texts;
use crate::expansions::expansion_texts;
use ax_app::run;
use ax_outside::{MemLibrary, MemSink, MemSource, fill};
use ax_vectors::{
    CAT019_P1, CAT034_P1, CAT048_P1, CAT048_P2, FILE_A, FILE_E, FILE_F, FILE_G1, FILE_G2, FILE_H1,
    FILE_H2, FILE_H3, FILE_N, FILE_S, FILE_W, FILE_Z, NESTED_TOO_DEEP, octets,
};
use std::alloc::Global;
use std::process::Abort;

// A file with four flaws, one that ends too early, and one with a quotation mark that is never closed.
const FILE_V: &str =
    r#"category 210 edition "V" items { item 010 "" element 8 quantity unsigned 0 1 "m" item 010 "" compound { } } uap { 020 }"#;

// File H1 with another scale in its subitem A.
const METRES: &str =
    r#"category 202 edition "H1" items { item 010 "" compound { A element 8 quantity unsigned 1 2 "m" B element 16 raw } } uap { 010 }"#;

// Wide and closed items within others.
const NESTED_KINDS: &str =
    r#"category 207 edition "X" items { item 010 "" wide { compound { A element 8 raw - - - - - - B element 8 raw } } item 020 "" closed { part { B element 8 raw } } item 030 "" wide { closed { part { A element 7 raw } part { B element 8 raw } } } item 040 "" wide { wide { element 8 raw } } item 050 "" counted { element 8 raw } item 060 "" wide { counted { wide { element 8 raw } } } } uap { 010 020 030 040 050 060 }"#;

// File W with a counter of one octet, and FX in the last part.
const COUNTED_AND_EXTENDED: &str =
    r#"category 206 edition "W" items { item 010 "" counted { element 8 raw } item 020 "" extended { part { A element 7 raw } part { B element 7 raw } } } uap { 010 020 }"#;

// An extended item, and another whose first part has the same width but other members.
const TWO_PARTS: &str =
    r#"category 207 edition "V1" items { item 010 "" extended { part { A element 7 raw } part { B element 7 raw } } } uap { 010 }"#;

const OTHER_PART: &str =
    r#"category 207 edition "V2" items { item 010 "" extended { part { A element 4 raw C element 3 raw } } } uap { 010 }"#;

const EMPTY_LAST_PART: &str =
    r#"category 206 edition "W" items { item 010 "" wide { element 8 raw } item 020 "" closed { part { } } } uap { 010 020 }"#;

// File G1 with an item that file G2 lacks.
const TWO_ITEMS: &str =
    r#"category 201 edition "G3" items { item 010 "" element 8 raw item 020 "" element 8 raw } uap { 010 020 }"#;

const OCCURRENCES: &str =
    r#"category 208 edition "J1" items { item 010 "" byfx element 7 raw } uap { 010 }"#;

const OCCURRENCES_IN_SLOT_8: &str =
    r#"category 208 edition "J2" items { item 010 "" byfx element 7 raw } uap { - - - - - - - 010 }"#;

const OCCURRENCES_IN_SLOT_126: &str =
    r#"category 208 edition "J3" items { item 010 "" byfx element 7 raw } uap { - - - - - - - - - - - - - - - - - - - - - - - - - - - - - - - - - - - - - - - - - - - - - - - - - - - - - - - - - - - - - - - - - - - - - - - - - - - - - - - - - - - - - - - - - - - - - - - - - - - - - - - - - - - - - - - - - - - - - - - - - - - - - 010 }"#;

const CUT_SHORT: &str =
    r#"category 034 edition "X" items { item 000 "T" element 8 raw } uap { 000"#;

// A brace after the end of a text.
const BRACE_AFTER: &str = "category 034 edition \"X\" items { } uap { } }";

const UNENDED: &str = r#"category 034 edition "X"#;

// No category: the second token is bad, though five more follow.
const NO_CATEGORY: &str = r#"category 256 edition "X" items { } uap { - }"#;

/// The most octets that a category file may have.
const LARGEST: usize = 1_048_576;

/// One octet more than a category file may have.
const TOO_LARGE: usize = 1_048_577;

/// How the calls of the outside are cut, or which one fails, by its number from 0.
#[derive(Clone, Copy, Debug)]
pub enum Outside {
    /// None is cut or fails.
    Sound,
    /// The reads give one octet each.
    OctetReads,
    /// The reads give two, three and five octets.
    CutReads,
    /// The writes take one octet each.
    OctetWrites,
    /// That load fails.
    Load(u64),
    /// The reads give one octet each, and that one fails.
    OctetRead(u64),
    /// That write fails.
    Write(u64),
    /// The writes take one octet each, and that one fails.
    OctetWrite(u64),
    /// The output has room for so many octets.
    Room(u32),
    /// That write to the report fails.
    Report(u64),
    /// The writes to the report take one octet each, and that one fails.
    OctetReport(u64),
    /// The report has room for so many octets.
    ReportRoom(u32),
}

// More octets than any output here has.
const AMPLE: u32 = 200_000;

/// The number of the call that fails, if any.
pub fn failing(rt: &impl Abort, alloc: Global, call: Option<u64>) -> Vec<u64> {
    match call {
        Some(call) => vec![in alloc; call].expect(rt, "memory"),
        None => Vec::new(alloc),
    }
}

fn library_of(rt: &impl Abort, alloc: Global, outside: Outside) -> MemLibrary {
    let call = match outside {
        Outside::Load(call) => Some(call),
        _ => None,
    };
    MemLibrary::new(files(rt, alloc), failing(rt, alloc, call))
}

/// The most octets that each read gives, in turn.
fn cuts_of(rt: &impl Abort, alloc: Global, outside: Outside, count: usize) -> Vec<u32> {
    match outside {
        // Each octet, and the end after them.
        Outside::OctetReads | Outside::OctetRead(_) => {
            vec![in alloc; 1; count.saturating_add(1)].expect(rt, "memory")
        }
        Outside::CutReads => vec![in alloc; 2, 3, 5].expect(rt, "memory"),
        _ => Vec::new(alloc),
    }
}

fn source_of(rt: &impl Abort, alloc: Global, outside: Outside, input: &[u8]) -> MemSource {
    let call = match outside {
        Outside::OctetRead(call) => Some(call),
        _ => None,
    };
    let cuts = cuts_of(rt, alloc, outside, input.len());
    let octets = input.to_vec(alloc).expect(rt, "memory");
    MemSource::new(octets, cuts, failing(rt, alloc, call))
}

fn out_of(rt: &impl Abort, alloc: Global, outside: Outside) -> MemSink {
    let room = match outside {
        Outside::Room(room) => room,
        _ => AMPLE,
    };
    let largest = match outside {
        Outside::OctetWrites | Outside::OctetWrite(_) => 1,
        _ => AMPLE,
    };
    let call = match outside {
        Outside::Write(call) | Outside::OctetWrite(call) => Some(call),
        _ => None,
    };
    let failing = failing(rt, alloc, call);
    MemSink::new(alloc, room, largest, failing).expect(rt, "memory")
}

fn report_of(rt: &impl Abort, alloc: Global, outside: Outside) -> MemSink {
    let room = match outside {
        Outside::ReportRoom(room) => room,
        _ => AMPLE,
    };
    let call = match outside {
        Outside::Report(call) | Outside::OctetReport(call) => Some(call),
        _ => None,
    };
    let largest = match outside {
        Outside::OctetReport(_) => 1,
        _ => AMPLE,
    };
    let failing = failing(rt, alloc, call);
    MemSink::new(alloc, room, largest, failing).expect(rt, "memory")
}

/// A run: its words, its input, and how its outside is cut or fails.
#[derive(Clone, Copy)]
pub struct Run<W, I> {
    pub words: W,
    pub input: I,
    pub outside: Outside,
}

impl<W, I> Run<W, I> {
    /// A run of which no call is cut or fails.
    pub fn sound(words: W, input: I) -> Self {
        Run {
            words,
            input,
            outside: Outside::Sound,
        }
    }
}

/// The words of `filter`: an expression, which is one word, and files, which have blanks between them.
#[derive(Clone, Copy)]
pub struct Filter<'f> {
    pub expression: &'f str,
    pub files: &'f str,
}

/// What a run leaves: its exit status, what stands on both outputs, and how many octets of the input were not
/// read.
#[derive(Clone, Copy, Debug, PartialEq, Eq)]
pub struct Left<'t> {
    pub status: u8,
    pub out: &'t [u8],
    pub report: &'t [u8],
    pub left: usize,
}

// File E after a comment, with two line feeds for each blank.
fn commented(rt: &impl Abort, alloc: Global) -> Vec<u8> {
    let mut made = b"# a comment\n".to_vec(alloc).expect(rt, "memory");
    for octet in FILE_E.as_bytes() {
        if *octet == b' ' {
            made.extend_from_slice(b"\n\n").expect(rt, "memory");
        } else {
            made.push(*octet).expect(rt, "memory");
        }
    }
    made
}

fn put(
    rt: &impl Abort,
    alloc: Global,
    files: &mut Vec<(String, Vec<u8>)>,
    name: &str,
    octets: Vec<u8>,
) {
    let name = String::from_str(alloc, name).expect(rt, "memory");
    files.push((name, octets)).expect(rt, "memory");
}

/// A text, with blanks at its end up to that count of octets.
fn padded(rt: &impl Abort, alloc: Global, text: &str, count: usize) -> Vec<u8> {
    let mut octets = text.as_bytes().to_vec(alloc).expect(rt, "memory");
    octets.resize(count, b' ').expect(rt, "memory");
    octets
}

static TEXTS: [(&str, &str); 32] = [
    ("A", FILE_A),
    ("E", FILE_E),
    ("F", FILE_F),
    ("G1", FILE_G1),
    ("G3", TWO_ITEMS),
    ("J1", OCCURRENCES),
    ("J2", OCCURRENCES_IN_SLOT_8),
    ("J3", OCCURRENCES_IN_SLOT_126),
    ("G2", FILE_G2),
    ("H1", FILE_H1),
    ("H2", FILE_H2),
    ("H3", FILE_H3),
    ("N", FILE_N),
    ("S", FILE_S),
    ("V", FILE_V),
    ("V1", TWO_PARTS),
    ("V2", OTHER_PART),
    ("W", FILE_W),
    ("X", NESTED_KINDS),
    ("W-counted", COUNTED_AND_EXTENDED),
    ("W-empty", EMPTY_LAST_PART),
    ("Z", FILE_Z),
    ("019", CAT019_P1),
    ("034", CAT034_P1),
    ("048", CAT048_P1),
    ("048-P2", CAT048_P2),
    ("metres", METRES),
    ("short", CUT_SHORT),
    ("following", BRACE_AFTER),
    ("unended", UNENDED),
    ("256", NO_CATEGORY),
    ("deep", NESTED_TOO_DEEP),
];

// The one function that has the texts in it: each such function's proof goes through them.
fn named_texts() -> &'static [(&'static str, &'static str)] {
    &TEXTS
}

/// The text of the file of that name.
pub fn text_of(rt: &impl Abort, name: &str) -> &'static str {
    for &(other, text) in named_texts() {
        if other == name {
            return text;
        }
    }
    panic!(rt; "no file {name}")
}

fn put_texts(
    rt: &impl Abort,
    alloc: Global,
    files: &mut Vec<(String, Vec<u8>)>,
    texts: &[(&str, &str)],
) {
    for &(name, text) in texts {
        let octets = text.as_bytes().to_vec(alloc).expect(rt, "memory");
        put(rt, alloc, files, name, octets);
    }
}

fn texts(rt: &impl Abort, alloc: Global) -> Vec<(String, Vec<u8>)> {
    let mut made = Vec::new(alloc);
    put_texts(rt, alloc, &mut made, named_texts());
    put_texts(rt, alloc, &mut made, expansion_texts());
    put_texts(rt, alloc, &mut made, conversion_texts());
    made
}

fn files(rt: &impl Abort, alloc: Global) -> Vec<(String, Vec<u8>)> {
    let mut made = texts(rt, alloc);
    put(rt, alloc, &mut made, "commented", commented(rt, alloc));
    let largest = padded(rt, alloc, FILE_E, LARGEST);
    put(rt, alloc, &mut made, "largest", largest);
    let large = padded(rt, alloc, "", TOO_LARGE);
    put(rt, alloc, &mut made, "large", large);
    made
}

/// Appends the words of a text, which has blanks between them.
fn push_words(rt: &impl Abort, alloc: Global, made: &mut Vec<String>, text: &str) {
    for word in text.split_whitespace() {
        let word = String::from_str(alloc, word).expect(rt, "memory");
        made.push(word).expect(rt, "memory");
    }
}

/// The octets that hexadecimal digits spell.
pub fn bytes(rt: &impl Abort, alloc: Global, digits: &str) -> Vec<u8> {
    octets(alloc, digits).expect(rt, "octets")
}

/// How many octets the source has left, which it then gives.
pub fn left_of(rt: &impl Abort, alloc: Global, source: &mut MemSource) -> usize {
    let mut buffer = vec![in alloc; 0; 70_000].expect(rt, "memory");
    fill(source, &mut buffer).expect(rt, "the rest of the input")
}

/// The outside of a run.
struct World {
    library: MemLibrary,
    source: MemSource,
    out: MemSink,
    report: MemSink,
}

impl Drop for World {
    fn drop(self) {
        let World {
            library: _library,
            source: _source,
            out: _out,
            report: _report,
        } = self;
    }
}

fn world_of(rt: &impl Abort, alloc: Global, outside: Outside, input: &[u8]) -> World {
    World {
        library: library_of(rt, alloc, outside),
        source: source_of(rt, alloc, outside, input),
        out: out_of(rt, alloc, outside),
        report: report_of(rt, alloc, outside),
    }
}

/// Runs the words in a world with this input, and asserts that the run leaves what is wanted.
fn world_leaves(
    rt: &impl Abort,
    alloc: Global,
    one: Run<&Vec<String>, &[u8]>,
    world: &mut World,
    want: Left<'_>,
) {
    let Run {
        words,
        input,
        outside,
    } = one;
    let outcome = run(
        alloc,
        words,
        &mut world.library,
        &mut world.source,
        &mut world.out,
        &mut world.report,
    );
    let got = Left {
        status: outcome.status(),
        out: world.out.written(),
        report: world.report.written(),
        left: left_of(rt, alloc, &mut world.source),
    };
    assert_eq!(rt; got, want, "of {words:?} over {input:?} where {outside:?}");
}

/// Runs the words over this input, and asserts that the run leaves what is wanted.
fn words_leave(rt: &impl Abort, alloc: Global, one: Run<&Vec<String>, &[u8]>, want: Left<'_>) {
    let mut world = world_of(rt, alloc, one.outside, one.input);
    world_leaves(rt, alloc, one, &mut world, want);
}

/// Runs the words, which have blanks between them, over this input, and asserts that the run leaves what is wanted.
pub fn leaves(rt: &impl Abort, alloc: Global, one: Run<&str, &[u8]>, want: Left<'_>) {
    let mut words = Vec::new(alloc);
    push_words(rt, alloc, &mut words, one.words);
    let one = Run {
        words: &words,
        input: one.input,
        outside: one.outside,
    };
    words_leave(rt, alloc, one, want);
}

/// The same where the input and the output are in hexadecimal: what is left is a status, the output, the report, and how
/// many octets were not read.
pub fn leaves_octets(
    rt: &impl Abort,
    alloc: Global,
    one: Run<&str, &str>,
    (status, out, report, left): (u8, &str, &str, usize),
) {
    let input = bytes(rt, alloc, one.input);
    let out = bytes(rt, alloc, out);
    let want = Left {
        status,
        out: &out,
        report: report.as_bytes(),
        left,
    };
    let one = Run {
        words: one.words,
        input: input.as_slice(),
        outside: one.outside,
    };
    leaves(rt, alloc, one, want);
}

/// The same where the input is in hexadecimal, and the output is a text.
pub fn leaves_text(
    rt: &impl Abort,
    alloc: Global,
    one: Run<&str, &str>,
    (status, out, report, left): (u8, &str, &str, usize),
) {
    let input = bytes(rt, alloc, one.input);
    let want = Left {
        status,
        out: out.as_bytes(),
        report: report.as_bytes(),
        left,
    };
    let one = Run {
        words: one.words,
        input: input.as_slice(),
        outside: one.outside,
    };
    leaves(rt, alloc, one, want);
}

fn filter_words(rt: &impl Abort, alloc: Global, filter: Filter<'_>) -> Vec<String> {
    let mut words = Vec::new(alloc);
    push_words(rt, alloc, &mut words, "filter");
    let expression = String::from_str(alloc, filter.expression).expect(rt, "memory");
    words.push(expression).expect(rt, "memory");
    push_words(rt, alloc, &mut words, filter.files);
    words
}

/// Runs `filter` over an input in hexadecimal, and asserts that the run leaves what is wanted, as `leaves_octets` does.
pub fn filter_leaves(
    rt: &impl Abort,
    alloc: Global,
    one: Run<Filter<'_>, &str>,
    (status, out, report, left): (u8, &str, &str, usize),
) {
    let words = filter_words(rt, alloc, one.words);
    let input = bytes(rt, alloc, one.input);
    let out = bytes(rt, alloc, out);
    let want = Left {
        status,
        out: &out,
        report: report.as_bytes(),
        left,
    };
    let one = Run {
        words: &words,
        input: input.as_slice(),
        outside: one.outside,
    };
    words_leave(rt, alloc, one, want);
}
