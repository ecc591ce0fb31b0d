//! Tokens of texts, and their first fault.

use crate::checks::same_text;
use ax_tokens::{LexError, Token, TokenKind, Tokens, tokens};
use std::alloc::Global;
use std::process::Abort;

/// A token's kind, text and first place.
type Wanted<'w> = (TokenKind, &'w [u8], u32);

/// The tokens of a text, asserting that it is short.
pub(crate) fn tokens_of<'t>(
    rt: &impl Abort,
    alloc: Global,
    text: &'t [u8],
    depth: u32,
) -> Result<Tokens<'t>, LexError> {
    assert!(rt; text.len() < 10_000);
    tokens(alloc, text, depth)
}

/// A fault, as a value that tests compare.
fn fault_of(
    rt: &impl Abort,
    alloc: Global,
    text: &[u8],
    depth: u32,
) -> Option<(&'static str, u32)> {
    match tokens_of(rt, alloc, text, depth) {
        Ok(_) => None,
        Err(LexError::BadByte { at }) => Some(("bad byte", at)),
        Err(LexError::TooDeep { token }) => Some(("too deep", token)),
        Err(LexError::OutOfMemory) => Some(("out of memory", 0)),
    }
}

/// Whether a token has that kind, text and first place, and ends with its text.
fn is_token(token: &Token<'_>, (kind, octets, from): Wanted<'_>) -> bool {
    token.kind == kind
        && token.text == octets
        && token.from == from
        && u64::from(token.to) == u64::from(from) + octets.len() as u64
}

/// Whether the tokens are those.
fn are_tokens(found: &Tokens<'_>, wanted: &[Wanted]) -> bool {
    if found.count() as usize != wanted.len() {
        return false;
    }
    for number in 0..found.count() {
        match found.get(number) {
            Some(token) if is_token(token, wanted[number as usize]) => {}
            _ => return false,
        }
    }
    found.get(found.count()).is_none()
}

/// Asserts that a text has those tokens.
fn has_tokens(rt: &impl Abort, alloc: Global, text: &[u8], depth: u32, wanted: &[Wanted]) {
    let found = tokens_of(rt, alloc, text, depth).expect(rt, "tokens");
    assert!(rt; are_tokens(&found, wanted), "{text:?} has {found:?}");
}

const TOKENS: [(&[u8], u32, &[Wanted]); 9] = [
    (b"", 0, &[]),
    (b"# a comment to the end {\"", 0, &[]),
    (b" \t\r\n", 0, &[]),
    (
        b"a\"b\"c{}",
        1,
        &[
            (TokenKind::Word, b"a", 0),
            (TokenKind::Str, b"\"b\"", 1),
            (TokenKind::Word, b"c", 4),
            (TokenKind::Open, b"{", 5),
            (TokenKind::Close, b"}", 6),
        ],
    ),
    (
        b"a#\x00\xff\"\nb",
        0,
        &[(TokenKind::Word, b"a", 0), (TokenKind::Word, b"b", 6)],
    ),
    (
        b"a\r\n# x\n# y\n\n~!",
        0,
        &[(TokenKind::Word, b"a", 0), (TokenKind::Word, b"~!", 12)],
    ),
    (
        b"\" ~#{}\"\"\"",
        0,
        &[
            (TokenKind::Str, b"\" ~#{}\"", 0),
            (TokenKind::Str, b"\"\"", 7),
        ],
    ),
    (
        b"}}{",
        1,
        &[
            (TokenKind::Close, b"}", 0),
            (TokenKind::Close, b"}", 1),
            (TokenKind::Open, b"{", 2),
        ],
    ),
    (
        b"{}{{}}",
        2,
        &[
            (TokenKind::Open, b"{", 0),
            (TokenKind::Close, b"}", 1),
            (TokenKind::Open, b"{", 2),
            (TokenKind::Open, b"{", 3),
            (TokenKind::Close, b"}", 4),
            (TokenKind::Close, b"}", 5),
        ],
    ),
];

#[test]
fn texts_have_their_tokens(rt: HostRuntime) {
    for &(text, depth, wanted) in &TOKENS {
        has_tokens(&rt, rt.alloc(), text, depth, wanted);
    }
}

const FAULTS: [(&[u8], u32, Option<(&str, u32)>); 16] = [
    (b"a \"b\tc\"", 0, Some(("bad byte", 4))),
    (b"x \"ab", 0, Some(("bad byte", 5))),
    (b"\"", 0, Some(("bad byte", 1))),
    (b"\"a\n\"", 0, Some(("bad byte", 2))),
    (b"\x7f", 0, Some(("bad byte", 0))),
    (b"ab\x80", 0, Some(("bad byte", 2))),
    (b"a \x00b", 0, Some(("bad byte", 2))),
    (b"}}{", 0, Some(("too deep", 2))),
    (b"{", 0, Some(("too deep", 0))),
    (b"{{{{{{{{{{{{{{{{", 16, None),
    (b"{{{{{{{{{{{{{{{{{", 16, Some(("too deep", 16))),
    (b"a{ b{ c{\"d\"{", 3, Some(("too deep", 7))),
    (b"{ { \x00", 1, Some(("too deep", 1))),
    (b"{ \x00 { {", 1, Some(("bad byte", 2))),
    (b"{ \"{{\x1f", 1, Some(("bad byte", 5))),
    (b"# {{ \x00\n}{", 1, None),
];

/// Asserts that a text has that fault, or none.
pub(crate) fn has_fault(
    rt: &impl Abort,
    alloc: Global,
    text: &[u8],
    depth: u32,
    wanted: Option<(&str, u32)>,
) {
    assert_eq!(rt; fault_of(rt, alloc, text, depth), wanted, "{text:?}");
}

#[test]
fn texts_have_their_first_fault(rt: HostRuntime) {
    for &(text, depth, wanted) in &FAULTS {
        has_fault(&rt, rt.alloc(), text, depth, wanted);
    }
}

/// A category file, whose tokens have one space between.
const CATEGORY_FILE: &[u8] =
    b"category 034 edition \"034-E\" items { item 010 \"\" element 16 raw item 000 \"\" element 8 raw item 030 \"\" element 24 raw } uap { 010 000 030 }";

/// The category file after a comment, with two line feeds for each space.
fn spread(rt: &impl Abort, alloc: Global) -> Vec<u8> {
    let mut made = Vec::from_slice(alloc, b"# { \" comment\n").expect(rt, "memory");
    for octet in CATEGORY_FILE {
        if *octet == b' ' {
            made.extend_from_slice(b"\n\n").expect(rt, "memory");
        } else {
            made.push(*octet).expect(rt, "memory");
        }
    }
    made
}

/// Whether the tokens of both have that text at that number.
fn have_one_text_at(one: &Tokens<'_>, other: &Tokens<'_>, number: u32) -> bool {
    let Some(found) = one.get(number) else {
        return false;
    };
    let Some(wanted) = other.get(number) else {
        return false;
    };
    found.text == wanted.text
}

/// Whether the tokens of both have the same texts in order.
fn have_one_text(one: &Tokens<'_>, other: &Tokens<'_>) -> bool {
    for number in 0..one.count() {
        if !have_one_text_at(one, other, number) {
            return false;
        }
    }
    one.count() == other.count()
}

/// Asserts that the tokens of both texts have the same texts in order, and answers how many they are.
pub(crate) fn have_one_spelling(rt: &impl Abort, alloc: Global, text: &[u8], other: &[u8]) -> u32 {
    let found = tokens_of(rt, alloc, text, 16).expect(rt, "tokens");
    let wanted = tokens_of(rt, alloc, other, 16).expect(rt, "tokens");
    assert!(rt; have_one_text(&found, &wanted), "{found:?} and {wanted:?}");
    wanted.count()
}

#[test]
fn gaps_change_no_token(rt: HostRuntime) {
    let octets = spread(&rt, rt.alloc());
    let count = have_one_spelling(&rt, rt.alloc(), &octets, CATEGORY_FILE);
    assert_eq!(rt; count, 31);
}

// Each error, and its text.
const ERRORS: [(LexError, &str); 3] = [
    (LexError::BadByte { at: 3 }, "octet 3 fits nowhere"),
    (
        LexError::TooDeep { token: 16 },
        "token 16 is nested too deep",
    ),
    (LexError::OutOfMemory, "out of memory"),
];

#[test]
fn errors_name_their_place(rt: HostRuntime) {
    for (error, wanted) in &ERRORS {
        let text = error.to_string(rt.alloc()).expect(&rt, "memory");
        same_text(&rt, text.as_str(), wanted, "an error");
    }
}
