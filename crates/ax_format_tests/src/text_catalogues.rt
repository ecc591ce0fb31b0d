//! Catalogues, and blocks that are read under them.

use crate::checks::same_number;
use crate::texts::accepted;
use ax_block_reader::{TextError, read_block_text};
use ax_check::{Accepted, Catalogue};
use ax_model::{Block, fits};
use ax_tokens::tokens;
use ax_values::encode_block;
use std::alloc::Global;
use std::process::Abort;

/// Adds a category file.
pub(crate) fn add_file(rt: &impl Abort, alloc: Global, catalogue: &mut Catalogue, text: &str) {
    let file = accepted(rt, alloc, text);
    catalogue.add(file).expect(rt, "a category that is new");
}

/// A catalogue of one category file.
pub(crate) fn catalogue_of(rt: &impl Abort, alloc: Global, text: &str) -> Catalogue {
    let mut catalogue = Catalogue::new(alloc);
    add_file(rt, alloc, &mut catalogue, text);
    catalogue
}

/// Adds octets to a line.
fn add(rt: &impl Abort, line: &mut Vec<u8>, text: &str) {
    line.extend_from_slice(text.as_bytes()).expect(rt, "memory");
}

/// A line with a front, so many times the middle, and an end.
#[derive(Clone, Copy)]
pub(crate) struct Repeated {
    pub(crate) front: &'static str,
    pub(crate) count: u32,
    pub(crate) middle: &'static str,
    pub(crate) end: &'static str,
}

impl Repeated {
    /// The octets of the line.
    pub(crate) fn made(&self, rt: &impl Abort, alloc: Global) -> Vec<u8> {
        let mut line = Vec::new(alloc);
        add(rt, &mut line, self.front);
        for _ in 0..self.count {
            add(rt, &mut line, self.middle);
        }
        add(rt, &mut line, self.end);
        line
    }
}

/// The block of a line, by the limit of nesting that record text has.
fn read_line(
    rt: &impl Abort,
    alloc: Global,
    catalogue: &Catalogue,
    line: &[u8],
) -> Result<Block, TextError> {
    assert!(rt; line.len() < 10_000_000);
    let found = tokens(alloc, line, 20).expect(rt, "tokens");
    read_block_text(alloc, catalogue, &found)
}

/// The block of a line that is the text of one.
pub(crate) fn block_of(
    rt: &impl Abort,
    alloc: Global,
    catalogue: &Catalogue,
    line: &[u8],
) -> Block {
    read_line(rt, alloc, catalogue, line).expect(rt, "the text of a block")
}

/// The octets of a block that fits a file.
pub(crate) fn encoded(rt: &impl Abort, alloc: Global, file: &Accepted, block: &Block) -> Vec<u8> {
    assert!(rt; fits(file.spec(), block));
    encode_block(alloc, file.spec(), block).expect(rt, "octets")
}

/// A line, and what it is named where its first bad token is another one.
#[derive(Clone, Copy)]
pub(crate) struct Line<'l> {
    pub(crate) octets: &'l [u8],
    pub(crate) name: &'l str,
}

impl<'l> Line<'l> {
    /// The line of a text, named by it.
    pub(crate) fn of(text: &'l str) -> Line<'l> {
        Line {
            octets: text.as_bytes(),
            name: text,
        }
    }
}

/// Asserts the number of the first bad token of a line that is no block's.
pub(crate) fn is_bad_at(
    rt: &impl Abort,
    alloc: Global,
    catalogue: &Catalogue,
    line: &Line<'_>,
    wanted: u32,
) {
    match read_line(rt, alloc, catalogue, line.octets) {
        Err(TextError::BadToken { token }) => same_number(
            rt,
            token as i128,
            wanted as i128,
            line.name,
        ),
        _ => panic!(rt; "no bad token"),
    }
}

/// Asserts how many octets the block of a line would have, which is too long.
pub(crate) fn is_too_long(
    rt: &impl Abort,
    alloc: Global,
    catalogue: &Catalogue,
    line: &[u8],
    wanted: u64,
) {
    match read_line(rt, alloc, catalogue, line) {
        Err(TextError::TooLong { octets }) => same_number(
            rt,
            octets as i128,
            wanted as i128,
            "octets",
        ),
        _ => panic!(rt; "not too long"),
    }
}
