//! Specifications and octets, read from texts. What can't be read stops the test.

use ax_check::{Accepted, accept};
use ax_grammar::read_spec;
use ax_model::RawBlock;
use ax_tables::{Codec, compile};
use ax_tokens::tokens;
use ax_vectors::octets;
use std::alloc::Global;
use std::process::Abort;

/// Asserts that what was found of something is what is wanted.
pub(crate) fn same(rt: &impl Abort, found: &str, wanted: &str, of: &str) {
    assert_eq!(rt; found, wanted, "of {of}");
}

fn same_length(rt: &impl Abort, found: usize, wanted: usize, of: &str) {
    assert_eq!(rt; found, wanted, "octets of {of}");
}

/// The specification of a category file without flaw.
pub(crate) fn accepted(rt: &impl Abort, alloc: Global, text: &str) -> Accepted {
    let text = text.as_bytes();
    assert!(rt; text.len() < 100_000);
    let found = tokens(alloc, text, 16).expect(rt, "tokens");
    let spec = read_spec(alloc, &found).expect(rt, "a specification");
    accept(alloc, spec).expect(rt, "no flaw")
}

/// The flat table of a file.
pub(crate) fn codec_of(rt: &impl Abort, alloc: Global, file: &Accepted) -> Codec {
    compile(alloc, file).expect(rt, "memory")
}

/// The octets that a text spells in hexadecimal.
pub(crate) fn octets_of(rt: &impl Abort, alloc: Global, text: &str) -> Vec<u8> {
    octets(alloc, text).expect(rt, "octets")
}

/// A body of a category.
pub(crate) fn raw<'o>(rt: &impl Abort, category: u8, body: &'o [u8]) -> RawBlock<'o> {
    assert!(rt; !body.is_empty());
    assert!(rt; body.len() <= 65_532);
    RawBlock { category, body }
}

/// The category and the body of a block whose LEN is right. The text of the block is told where it isn't.
pub(crate) fn raw_of<'o>(rt: &impl Abort, octets: &'o [u8], block: &str) -> RawBlock<'o> {
    assert!(rt; octets.len() >= 4);
    let length = octets[1] as usize * 256 + octets[2] as usize;
    same_length(rt, octets.len(), length, block);
    raw(rt, octets[0], &octets[3..])
}
