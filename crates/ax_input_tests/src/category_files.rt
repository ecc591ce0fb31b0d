//! Category files that are read and printed.

use crate::checks::same_text;
use crate::lexing::{has_fault, have_one_spelling, tokens_of};
use ax_grammar::{SyntaxError, print_spec, read_spec};
use ax_tokens::LexError;
use ax_vectors::{
    CAT048_P1, FILE_E, FILE_G1, FILE_H1, FILE_H2, FILE_K, FILE_N, FILE_S, FILE_W, FILE_Z,
    NESTED_TOO_DEEP,
};
use std::alloc::Global;
use std::process::Abort;
use std::test::Fail;

/// The bad token of a text, as a value that tests compare.
fn bad_token(rt: &impl Abort, alloc: Global, text: &[u8]) -> Option<u32> {
    let Ok(found) = tokens_of(rt, alloc, text, 16) else {
        return None;
    };
    match read_spec(alloc, &found) {
        Err(SyntaxError::BadToken { token }) => Some(token),
        _ => None,
    }
}

const BAD_TOKENS: [(&[u8], u32); 24] = [
    (
        b"category 034 edition \"X\" items { item 000 \"T\" closed { element 7 raw } } uap { }",
        11,
    ),
    (
        b"category 034 edition \"X\" items { item 000 \"T\" wide { element 8 raw element 8 raw } } uap { }",
        14,
    ),
    (
        b"category 034 edition \"X\" items { item 000 \"T\" wide {",
        11,
    ),
    (
        b"category 034 edition \"X\" items { item 000 \"T\" wide { } } uap { }",
        11,
    ),
    (b"", 0),
    (b"# nothing but a comment", 0),
    (
        b"category 034 edition \"X\" items { item 000 \"T\" element 8 raw } uap { 000",
        16,
    ),
    (b"category 256 edition \"X\" items { } uap { }", 1),
    (b"category 34 edition \"X\" items { } uap { }", 1),
    (b"category \"034\" edition \"X\" items { } uap { }", 1),
    (b"category 034 edition X items { } uap { }", 3),
    (b"category 034 edition \"X\" items { } uap { } }", 10),
    (b"category 034 edition \"X\" items { } uap { spare }", 9),
    (
        b"category 034 edition \"X\" items { item 000 \"T\" element 08 raw } uap { }",
        10,
    ),
    (
        b"category 034 edition \"X\" items { item 000 \"T\" element +8 raw } uap { }",
        10,
    ),
    (
        b"category 034 edition \"X\" items { item 000 \"T\" element 1234567890 raw } uap { }",
        10,
    ),
    (
        b"category 034 edition \"X\" items { item ABCDEFGHIJKLMNOPQ \"T\" explicit } uap { }",
        7,
    ),
    (
        b"category 034 edition \"X\" items { item abc \"T\" explicit } uap { }",
        7,
    ),
    (
        b"category 034 edition \"X\" items { item 000 \"T\" element 8 table { 1234567890123456789 \"\" } } uap { }",
        13,
    ),
    (
        b"category 034 edition \"X\" items { item 000 \"T\" element 8 quantity unsigned 1 128 } uap { }",
        15,
    ),
    (
        b"category 034 edition \"X\" items { item 000 \"T\" part { } } uap { }",
        9,
    ),
    (
        b"category 034 edition \"X\" items { item 000 element 8 raw } uap { }",
        8,
    ),
    (
        b"category 034 edition \"X\" items { item 000 \"T\" group { - } } uap { }",
        11,
    ),
    (
        b"category 034 edition \"X\" items { item 000 \"T\" counted { explicit explicit } } uap { }",
        12,
    ),
];

/// Asserts that a text has that bad token.
fn has_bad_token(rt: &impl Abort, alloc: Global, text: &[u8], wanted: u32) {
    assert_eq!(rt; bad_token(rt, alloc, text), Some(wanted), "{text:?}");
}

#[test]
fn bad_tokens_are_named(rt: HostRuntime) {
    for &(text, wanted) in &BAD_TOKENS {
        has_bad_token(&rt, rt.alloc(), text, wanted);
    }
}

const CUT: &[u8] = b"category 034 edition \"X";

#[test]
fn tokens_are_refused_before_the_grammar(rt: HostRuntime) {
    let deep = NESTED_TOO_DEEP.as_bytes();
    has_fault(&rt, rt.alloc(), CUT, 16, Some(("bad byte", 23)));
    has_fault(&rt, rt.alloc(), deep, 16, Some(("too deep", 55)));
}

/// The text that a file's specification is printed as.
fn reprinted(rt: &impl Abort, alloc: Global, text: &[u8]) -> Result<Vec<u8>, Fail> {
    let found = tokens_of(rt, alloc, text, 16)?;
    let spec = read_spec(alloc, &found)?;
    Ok(print_spec(alloc, &spec)?)
}

/// Asserts that a text's specification is printed as that text.
fn is_printed_as(rt: &impl Abort, alloc: Global, text: &[u8], want: &[u8]) -> Result<(), Fail> {
    let printed = reprinted(rt, alloc, text)?;
    assert_eq!(rt; printed.as_slice(), want);
    Ok(())
}

// Files on one line.
const FILES: [&str; 9] = [
    FILE_E, FILE_K, FILE_N, FILE_S, FILE_W, FILE_G1, FILE_H1, FILE_H2, FILE_Z,
];

#[test]
fn one_line_files_are_printed_as_they_are(rt: HostRuntime) -> Result<(), Fail> {
    for file in &FILES {
        is_printed_as(&rt, rt.alloc(), file.as_bytes(), file.as_bytes())?;
    }
    Ok(())
}

#[test]
fn a_printed_sample_has_the_tokens_of_its_file(rt: HostRuntime) -> Result<(), Fail> {
    let text = CAT048_P1.as_bytes();
    let printed = reprinted(&rt, rt.alloc(), text)?;
    have_one_spelling(&rt, rt.alloc(), &printed, text);
    is_printed_as(&rt, rt.alloc(), &printed, &printed)
}

// Each error, and its text.
const ERRORS: [(SyntaxError, &str); 2] = [
    (SyntaxError::BadToken { token: 16 }, "token 16 does not fit"),
    (SyntaxError::OutOfMemory, "out of memory"),
];

#[test]
fn errors_name_their_token(rt: HostRuntime) {
    for (error, wanted) in &ERRORS {
        let text = error.to_string(rt.alloc()).expect(&rt, "memory");
        same_text(&rt, text.as_str(), wanted, "an error");
    }
}
