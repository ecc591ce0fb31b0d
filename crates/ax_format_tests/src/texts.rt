//! Specifications from texts, and what became of them as texts.

use ax_check::{Accepted, Flaw, Flaws, accept, flaws};
use ax_grammar::read_spec;
use ax_model::Spec;
use ax_tokens::tokens;
use std::alloc::{AllocError, Global};
use std::process::Abort;

/// The specification that a text spells.
pub(crate) fn read(rt: &impl Abort, alloc: Global, text: &str) -> Spec {
    let octets = text.as_bytes();
    assert!(rt; octets.len() <= 100_000);
    let found = tokens(alloc, octets, 16).expect(rt, "tokens");
    read_spec(alloc, &found).expect(rt, "a specification")
}

pub(crate) fn accepted(rt: &impl Abort, alloc: Global, text: &str) -> Accepted {
    let spec = read(rt, alloc, text);
    accept(alloc, spec).expect(rt, "a specification without flaw")
}

/// Asserts that what is told of a text is as wanted.
pub(crate) fn same(rt: &impl Abort, found: &str, wanted: &str, of: &str) {
    assert_eq!(rt; found, wanted, "{of}");
}

/// The kind and the path.
fn line(alloc: Global, flaw: &Flaw) -> Result<String, AllocError> {
    let path = String::from_utf8_lossy(alloc, flaw.path.as_slice())?;
    format!(in alloc; "{:?} {path}", flaw.kind)
}

/// The flaws in order, joined by `, `.
pub(crate) fn flaw_lines(alloc: Global, found: &Flaws) -> Result<String, AllocError> {
    let mut made = String::new(alloc);
    for flaw in found.as_slice() {
        if !made.is_empty() {
            made.push_str(", ")?;
        }
        made.push_str(line(alloc, flaw)?.as_str())?;
    }
    Ok(made)
}

/// Asserts that a text has those flaws.
pub(crate) fn has_flaws(rt: &impl Abort, alloc: Global, text: &str, wanted: &str) {
    let found = flaws(alloc, &read(rt, alloc, text)).expect(rt, "memory");
    let told = flaw_lines(alloc, &found).expect(rt, "memory");
    same(rt, told.as_str(), wanted, text);
}

/// Asserts that category 210 with these items and slots has those flaws.
pub(crate) fn items_have_flaws(
    rt: &impl Abort,
    alloc: Global,
    items: &str,
    uap: &str,
    wanted: &str,
) {
    let text = format!(in alloc; "category 210 edition \"V\" items {{ {items} }} uap {{ {uap} }}");
    has_flaws(rt, alloc, text.expect(rt, "memory").as_str(), wanted);
}

/// Asserts that category 210 with one item, 010, of this kind has those flaws.
pub(crate) fn kind_has_flaws(rt: &impl Abort, alloc: Global, kind: &str, wanted: &str) {
    let item = format!(in alloc; "item 010 \"\" {kind}").expect(rt, "memory");
    items_have_flaws(rt, alloc, item.as_str(), "010", wanted);
}

/// Asserts of each kind that category 210 with one item, 010, of it has the flaws beside it.
pub(crate) fn kinds_have_flaws(rt: &impl Abort, alloc: Global, kinds: &[(&str, &str)]) {
    for &(kind, wanted) in kinds {
        kind_has_flaws(rt, alloc, kind, wanted);
    }
}
