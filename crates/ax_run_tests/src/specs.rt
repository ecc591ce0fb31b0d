//! Specifications, read from texts.

use ax_check::{Accepted, accept};
use ax_format::Spec;
use ax_grammar::read_spec;
use ax_tokens::tokens;
use std::alloc::Global;
use std::process::Abort;

/// The specification that a text spells.
pub(crate) fn spec_of(rt: &impl Abort, alloc: Global, text: &str) -> Spec {
    let text = text.as_bytes();
    assert!(rt; text.len() < 1_000_000);
    let found = tokens(alloc, text, 16).expect(rt, "tokens");
    read_spec(alloc, &found).expect(rt, "a specification")
}

/// The specification that a text spells, accepted.
pub(crate) fn accepted(rt: &impl Abort, alloc: Global, text: &str) -> Accepted {
    let spec = spec_of(rt, alloc, text);
    accept(alloc, spec).expect(rt, "a specification without flaw")
}
