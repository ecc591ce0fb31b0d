//! The words of a command line.

use crate::checks::same_text;
use ax_words::{Line, WordText, WordTexts, WordsError, read_words};
use std::alloc::Global;
use std::process::Abort;

/// The words between the spaces of a text. The empty text has none.
fn words_in(rt: &impl Abort, alloc: Global, text: &str) -> Vec<String> {
    let mut words = Vec::new(alloc);
    if text.is_empty() {
        return words;
    }
    for word in text.split(' ') {
        let word = String::from_str(alloc, word).expect(rt, "memory");
        words.push(word).expect(rt, "memory");
    }
    words
}

/// A verb and a word in brackets.
fn with_word(rt: &impl Abort, alloc: Global, verb: &str, word: &WordText) -> String {
    let mut shown = String::from_str(alloc, verb).expect(rt, "memory");
    write!(shown, " [{}]", word.text()).expect(rt, "memory");
    shown
}

/// A verb and each of the files, in brackets.
fn with_files(rt: &impl Abort, alloc: Global, verb: &str, files: &WordTexts) -> String {
    let mut shown = String::from_str(alloc, verb).expect(rt, "memory");
    for file in files.as_slice() {
        shown = with_word(rt, alloc, shown.as_str(), file);
    }
    shown
}

/// What is shown, and another file in brackets after a word between.
fn with_other(
    rt: &impl Abort,
    alloc: Global,
    mut shown: String,
    between: &str,
    other: &WordText,
) -> String {
    shown.push_str(between).expect(rt, "memory");
    with_word(rt, alloc, shown.as_str(), other)
}

/// A verb, and the files of an old edition and of a new one in brackets.
fn with_editions(
    rt: &impl Abort,
    alloc: Global,
    verb: &str,
    old: &WordText,
    new: &WordText,
) -> String {
    let shown = with_word(rt, alloc, verb, old);
    with_other(rt, alloc, shown, " to", new)
}

/// The files of a specification and of its expansion in brackets.
fn with_expansion(rt: &impl Abort, alloc: Global, spec: &WordText, expansion: &WordText) -> String {
    let shown = with_word(rt, alloc, "expand", spec);
    with_other(rt, alloc, shown, " by", expansion)
}

/// The file of a trial in brackets, and its numbers.
fn with_numbers(rt: &impl Abort, alloc: Global, file: &WordText, seed: u64, count: u32) -> String {
    let mut shown = with_word(rt, alloc, "trial", file);
    write!(shown, " {seed} {count}").expect(rt, "memory");
    shown
}

/// What a line says.
fn shown(rt: &impl Abort, alloc: Global, line: &Line) -> String {
    match line {
        Line::Check { file } => with_word(rt, alloc, "check", file),
        Line::Canon { files } => with_files(rt, alloc, "canon", files),
        Line::Show { files } => with_files(rt, alloc, "show", files),
        Line::Text { files } => with_files(rt, alloc, "text", files),
        Line::Build { files } => with_files(rt, alloc, "build", files),
        Line::Filter { expr, files } => with_files(rt, alloc, expr.text(), files),
        Line::Migrate { old, new } => with_editions(rt, alloc, "migrate", old, new),
        Line::Trial { file, seed, count } => with_numbers(rt, alloc, file, *seed, *count),
        Line::Salvage { files } => with_files(rt, alloc, "salvage", files),
        Line::Expand { spec, expansion } => with_expansion(rt, alloc, spec, expansion),
        Line::Convert { old, new } => with_editions(rt, alloc, "convert", old, new),
        Line::Help => String::from_str(alloc, "help").expect(rt, "memory"),
        Line::Version => String::from_str(alloc, "version").expect(rt, "memory"),
    }
}

/// What the words of a text ask for.
fn read(rt: &impl Abort, alloc: Global, text: &str) -> String {
    let words = words_in(rt, alloc, text);
    match read_words(alloc, words.as_slice()) {
        Ok(line) => shown(rt, alloc, &line),
        Err(WordsError::Usage) => String::from_str(alloc, "usage").expect(rt, "memory"),
        Err(WordsError::OutOfMemory) => panic!(rt; "out of memory"),
    }
}

/// Asserts that the words of a text ask for that.
fn ask_for(rt: &impl Abort, alloc: Global, text: &str, want: &str) {
    let found = read(rt, alloc, text);
    same_text(rt, found.as_str(), want, text);
}

const LINES: [(&str, &str); 18] = [
    ("check A", "check [A]"),
    ("check ", "check []"),
    ("canon A", "canon [A]"),
    ("canon A B C", "canon [A] [B] [C]"),
    ("canon help check", "canon [help] [check]"),
    ("show A", "show [A]"),
    ("text A B", "text [A] [B]"),
    ("build A", "build [A]"),
    ("filter any{} A", "any{} [A]"),
    ("filter any{} A B", "any{} [A] [B]"),
    ("migrate A B", "migrate [A] to [B]"),
    ("trial Z 0 0", "trial [Z] 0 0"),
    (
        "trial Z 18446744073709551615 1000000",
        "trial [Z] 18446744073709551615 1000000",
    ),
    ("salvage A B", "salvage [A] [B]"),
    ("expand A X", "expand [A] by [X]"),
    ("convert A B", "convert [A] to [B]"),
    ("--help", "help"),
    ("--version", "version"),
];

#[test]
fn lines_of_words(rt: HostRuntime) {
    for &(text, want) in &LINES {
        ask_for(&rt, rt.alloc(), text, want);
    }
}

const REFUSED: [&str; 32] = [
    "",
    " ",
    "help",
    "Check A",
    "check",
    "check A E",
    "canon",
    "canon -x",
    "canon A --help",
    "-- canon A",
    "canon -- A",
    "filter any{}",
    "migrate A",
    "migrate A B C",
    "trial Z 1",
    "trial Z 1 1 1",
    "trial Z 01 1",
    "trial Z +1 1",
    "trial Z 1 00",
    "trial Z  1",
    "trial Z 18446744073709551616 1",
    "trial Z 1 1000001",
    "salvage",
    "expand A",
    "expand A X X",
    "convert A",
    "convert A -B",
    "convert A B C",
    "--help A",
    "--version A",
    "-h",
    "--version=1",
];

#[test]
fn words_without_a_line(rt: HostRuntime) {
    for text in &REFUSED {
        ask_for(&rt, rt.alloc(), text, "usage");
    }
}
