//! Expansion files: what they spell, their first bad tokens and their flaws, and slots in the midst of tokens.

use crate::checks::same_number;
use crate::texts::{flaw_lines, same};
use ax_check::CheckError;
use ax_expand::{
    AcceptedExpansion, Expansion, Form, SyntaxError, accept_expansion, read_expansion,
};
use ax_grammar::read_slots;
use ax_model::{Flaws, Slots};
use ax_tokens::{Tokens, tokens};
use std::alloc::Global;
use std::process::Abort;

// Files, and the number of the first bad token.
const BAD: [(&str, u32); 16] = [
    (
        r#"expansion 048 edition "" fixed 16 { A element 8 raw }"#,
        5,
    ),
    (r#"expansion 048 edition "" fixed 0 { A element 8 raw }"#, 5),
    (
        r#"expansion 048 edition "" fixed 01 { A element 8 raw }"#,
        5,
    ),
    (r#"expansion 048 edition "" fixed { A element 8 raw }"#, 5),
    (r#"expansion 048 edition "" fx 1 { A element 8 raw }"#, 5),
    (r#"expansion 048 edition "" fx { A }"#, 7),
    (r#"expansion 048 edition "" fixed 1 { A }"#, 8),
    (r#"expansion 048 edition "" fx { A element 8 raw } x"#, 11),
    (r#"expansion 048 edition "" fx { A element 8 raw"#, 10),
    (r#"expansion 048 edition "" { A element 8 raw }"#, 4),
    (r#"expansion 048 edition "" FX { A element 8 raw }"#, 4),
    (r#"expansion 048 edition fx { A element 8 raw }"#, 3),
    (r#"expansion 256 edition "" fx { A element 8 raw }"#, 1),
    (r#"category 048 edition "" items { } uap { }"#, 0),
    ("expansion", 1),
    ("", 0),
];

// Files, and their flaws.
const FLAWED: [(&str, &str); 7] = [
    (
        r#"expansion 048 edition "" fixed 1 { A element 8 raw - - - - - - - }"#,
        "",
    ),
    (
        r#"expansion 048 edition "" fixed 1 { A element 8 raw - - - - - - - - }"#,
        "TooManySlots 048/RE",
    ),
    (
        r#"expansion 009 edition "" fx { A element 8 raw - - - - - - - - }"#,
        "",
    ),
    (r#"expansion 009 edition "" fixed 15 { }"#, "Empty 009/RE"),
    (
        r#"expansion 048 edition "" fx { A element 8 raw A explicit }"#,
        "DuplicateName 048/RE/A",
    ),
    (
        r#"expansion 048 edition "" fixed 1 { A element 7 raw - - - - - - - - }"#,
        "NotOctets 048/RE/A, TooManySlots 048/RE",
    ),
    (
        r#"expansion 048 edition "" fx { A compound { B element 4 raw } }"#,
        "NotOctets 048/RE/A/B",
    ),
];

// Tokens in whose midst slots stand, from which token on, how many slots there are, and the number of the brace.
const SLOTS: [(&str, u32, u32, u32); 3] = [
    ("x { A element 8 raw - } Y", 2, 2, 7),
    ("x { A element 8 raw - } Y", 7, 0, 7),
    ("{ - { - } }", 3, 1, 4),
];

// Tokens where no slots stand, from which token on, and the number of the first bad one.
const NO_SLOTS: [(&str, u32, u32); 5] = [
    ("x { A element 8 raw - } Y", 0, 0),
    ("x { A element 8 raw - } Y", 3, 3),
    ("x { A element 8 raw - } Y", 8, 9),
    ("x { A element 8 raw - } Y", 9, 9),
    ("{ A element 8 { } }", 1, 4),
];

/// The tokens of a text.
fn tokens_of<'t>(rt: &impl Abort, alloc: Global, text: &'t str) -> Tokens<'t> {
    let octets = text.as_bytes();
    assert!(rt; octets.len() <= 100_000);
    tokens(alloc, octets, 16).expect(rt, "tokens")
}

fn read(rt: &impl Abort, alloc: Global, text: &str) -> Expansion {
    let found = tokens_of(rt, alloc, text);
    read_expansion(alloc, &found).expect(rt, "an expansion")
}

/// The expansion of a file without flaw.
pub(crate) fn accepted(rt: &impl Abort, alloc: Global, text: &str) -> AcceptedExpansion {
    let one = read(rt, alloc, text);
    accept_expansion(alloc, one).expect(rt, "an expansion without flaw")
}

/// The expansion of a file, with a form in place of its own.
pub(crate) fn with_form(rt: &impl Abort, alloc: Global, text: &str, form: Form) -> Expansion {
    let Expansion {
        category,
        edition,
        slots,
        ..
    } = read(rt, alloc, text);
    Expansion {
        category,
        edition,
        form,
        slots,
    }
}

/// Asserts that a bad token is named.
fn is_bad<T>(rt: &impl Abort, found: Result<T, SyntaxError>, wanted: u32, of: &str) {
    match found {
        Err(SyntaxError::BadToken { token }) => {
            same_number(rt, i128::from(token), i128::from(wanted), of)
        }
        Err(SyntaxError::OutOfMemory) => panic!(rt; "memory for {of}"),
        Ok(_) => panic!(rt; "no bad token in {of}"),
    }
}

#[test]
fn the_first_bad_token_of_a_file_is_named(rt: HostRuntime) {
    let alloc = rt.alloc();
    for &(text, wanted) in &BAD {
        let found = tokens_of(&rt, alloc, text);
        is_bad(&rt, read_expansion(alloc, &found), wanted, text);
    }
}

/// The flaws of an expansion; none where it is accepted.
fn flaws_of(rt: &impl Abort, alloc: Global, one: Expansion) -> Flaws {
    match accept_expansion(alloc, one) {
        Ok(_) => Flaws::new(alloc),
        Err(CheckError::Flawed { flaws }) => flaws,
        Err(CheckError::OutOfMemory) => panic!(rt; "memory"),
    }
}

fn has_flaws(rt: &impl Abort, alloc: Global, one: Expansion, wanted: &str, of: &str) {
    let found = flaws_of(rt, alloc, one);
    let told = flaw_lines(alloc, &found).expect(rt, "memory");
    same(rt, told.as_str(), wanted, of);
}

#[test]
fn flaws_are_told_in_order(rt: HostRuntime) {
    let alloc = rt.alloc();
    for &(text, wanted) in &FLAWED {
        let one = read(&rt, alloc, text);
        has_flaws(&rt, alloc, one, wanted, text);
    }
}

#[test]
fn a_form_without_octets_has_no_mark(rt: HostRuntime) {
    let alloc = rt.alloc();
    let text = r#"expansion 048 edition "" fx { A element 8 raw }"#;
    let one = with_form(&rt, alloc, text, Form::Fixed(0));
    has_flaws(&rt, alloc, one, "TooManySlots 048/RE", text);
}

/// Asserts how many slots there are and where the brace is.
fn are_slots(rt: &impl Abort, found: &(Slots, u32), count: u32, close: u32, of: &str) {
    let (slots, end) = found;
    same_number(rt, i128::from(slots.count()), i128::from(count), of);
    same_number(rt, i128::from(*end), i128::from(close), of);
}

#[test]
fn slots_are_read_in_the_midst_of_tokens(rt: HostRuntime) {
    let alloc = rt.alloc();
    for &(text, at, count, close) in &SLOTS {
        let found = tokens_of(&rt, alloc, text);
        assert!(&rt; at <= found.count());
        let read = read_slots(alloc, &found, at).expect(&rt, "slots");
        are_slots(&rt, &read, count, close, text);
    }
}

#[test]
fn the_first_bad_token_of_slots_is_named(rt: HostRuntime) {
    let alloc = rt.alloc();
    for &(text, at, wanted) in &NO_SLOTS {
        let found = tokens_of(&rt, alloc, text);
        assert!(&rt; at <= found.count());
        is_bad(&rt, read_slots(alloc, &found, at), wanted, text);
    }
}
