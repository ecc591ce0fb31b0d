//! Catalogues, filters and blocks, read from texts. What can't be read stops the test.

use crate::checks::same_text;
use ax_bits::Out;
use ax_canon::canonical_if;
use ax_check::{Accepted, Catalogue, accept};
use ax_filter::{Filter, FilterStop, read_expression};
use ax_format::{Block, RawBlock, Spec};
use ax_grammar::read_spec;
use ax_tables::compile;
use ax_tokens::tokens;
use ax_values::decode_block;
use ax_vectors::octets;
use ax_view::{BlockView, RecordView, scan};
use std::alloc::Global;
use std::process::Abort;

/// The specification of a category file without flaw.
fn accepted(rt: &impl Abort, alloc: Global, text: &str) -> Accepted {
    let text = text.as_bytes();
    assert!(rt; text.len() < 10_000);
    let found = tokens(alloc, text, 16).expect(rt, "tokens");
    let spec = read_spec(alloc, &found).expect(rt, "a specification");
    accept(alloc, spec).expect(rt, "no flaw")
}

fn add(rt: &impl Abort, alloc: Global, made: &mut Catalogue, text: &str) {
    let file = accepted(rt, alloc, text);
    made.add(file).expect(rt, "another category");
}

/// The catalogue of two category files.
pub(crate) fn catalogue(rt: &impl Abort, alloc: Global, first: &str, second: &str) -> Catalogue {
    let mut made = Catalogue::new(alloc);
    add(rt, alloc, &mut made, first);
    add(rt, alloc, &mut made, second);
    made
}

/// The filter that an expression is read as, or why it is none.
fn read<'c>(
    rt: &impl Abort,
    alloc: Global,
    catalogue: &'c Catalogue,
    text: &str,
) -> Result<Filter<'c>, FilterStop> {
    let text = text.as_bytes();
    assert!(rt; text.len() < 10_000);
    read_expression(alloc, text, catalogue)
}

/// The filter that an expression is read as.
pub(crate) fn filter_of<'c>(
    rt: &impl Abort,
    alloc: Global,
    catalogue: &'c Catalogue,
    text: &str,
) -> Filter<'c> {
    read(rt, alloc, catalogue, text).expect(rt, text)
}

/// Asserts that an expression is refused for that fault.
pub(crate) fn is_refused(
    rt: &impl Abort,
    alloc: Global,
    catalogue: &Catalogue,
    text: &str,
    want: &str,
) {
    match read(rt, alloc, catalogue, text) {
        Err(FilterStop::Refused(fault)) => {
            let got = format!(in alloc; "{fault:?}").expect(rt, "memory");
            same_text(rt, got.as_str(), want, text);
        }
        Err(FilterStop::OutOfMemory) => rt.panic("out of memory"),
        Ok(_) => same_text(rt, "a filter", want, text),
    }
}

/// How many records of the block the filter holds of, as trees.
fn matching_trees(filter: &Filter<'_>, spec: &Spec, block: &Block) -> usize {
    let mut count: usize = 0;
    if let Block::Read { records, .. } = block {
        for one in records.as_slice() {
            if filter.holds_tree(spec, one) {
                count = count.saturating_add(1);
            }
        }
    }
    count
}

/// How many records of a block of that category the filter holds of, as views.
fn matching_views(filter: &Filter<'_>, category: u8, view: &BlockView<'_, '_>) -> usize {
    let mut count: usize = 0;
    for one in view.records() {
        if filter.holds(category, &one) {
            count = count.saturating_add(1);
        }
    }
    count
}

/// The same, each record asked under its codec.
fn matching_under(filter: &Filter<'_>, category: u8, view: &BlockView<'_, '_>) -> usize {
    let mut count: usize = 0;
    for one in view.records() {
        if filter.holds_under(category, view.codec(), &one) {
            count = count.saturating_add(1);
        }
    }
    count
}

/// How many records of a block the filter holds of, as trees.
fn matching(
    rt: &impl Abort,
    alloc: Global,
    file: &Accepted,
    filter: &Filter<'_>,
    raw: &RawBlock<'_>,
) -> usize {
    let block = decode_block(alloc, file.spec(), raw).expect(rt, "records");
    matching_trees(filter, file.spec(), &block)
}

/// Octets in hexadecimal, with a space between.
fn shown(rt: &impl Abort, alloc: Global, octets: &[u8]) -> String {
    let mut text = String::new(alloc);
    let mut mark = "";
    for octet in octets {
        write!(text, "{mark}{octet:02X}").expect(rt, "memory");
        mark = " ";
    }
    text
}

/// The canonical block of the records of a view that the filter holds of, in hexadecimal.
fn kept(
    rt: &impl Abort,
    alloc: Global,
    filter: &Filter<'_>,
    category: u8,
    view: &BlockView<'_, '_>,
) -> String {
    let mut output = vec![in alloc; 0; view.octets().len() + 3].expect(rt, "memory");
    let holds = |one: &RecordView<'_, '_>| filter.holds(category, one);
    let mut out = Out::over(&mut output);
    let count = canonical_if(view, holds, &mut out) as usize;
    assert!(rt; count <= output.len());
    shown(rt, alloc, &output[..count])
}

/// The canonical block of the records that the filter holds of, in hexadecimal; no octets where it holds of none. Trees and
/// views, under their codec too, agree on how many these are.
fn filtered(
    rt: &impl Abort,
    alloc: Global,
    file: &Accepted,
    filter: &Filter<'_>,
    raw: &RawBlock<'_>,
) -> String {
    assert!(rt; !raw.body.is_empty());
    assert!(rt; raw.body.len() <= 65_532);
    let codec = compile(alloc, file).expect(rt, "memory");
    let view = scan(&codec, raw.body).expect(rt, "records");
    let as_trees = matching(rt, alloc, file, filter, raw);
    assert_eq!(rt; matching_views(filter, raw.category, &view), as_trees);
    assert_eq!(rt; matching_under(filter, raw.category, &view), as_trees);
    kept(rt, alloc, filter, raw.category, &view)
}

/// The category and the body of a block.
fn raw_of<'o>(rt: &impl Abort, octets: &'o [u8]) -> RawBlock<'o> {
    assert!(rt; octets.len() >= 4);
    assert!(rt; octets.len() <= 65_535);
    RawBlock {
        category: octets[0],
        body: &octets[3..],
    }
}

/// An expression, a block, and the block of its records that the expression holds of, in canonical form; no octets where it
/// holds of none.
#[derive(Clone, Copy)]
pub(crate) struct Case<'t> {
    pub(crate) text: &'t str,
    pub(crate) block: &'t str,
    pub(crate) want: &'t str,
}

/// Asserts that the expression keeps that of the block.
pub(crate) fn keeps(rt: &impl Abort, alloc: Global, catalogue: &Catalogue, one: Case<'_>) {
    let Case { text, block, want } = one;
    let filter = filter_of(rt, alloc, catalogue, text);
    let octets = octets(alloc, block).expect(rt, "octets");
    let raw = raw_of(rt, &octets);
    let file = catalogue.get(raw.category).expect(rt, "a specification");
    let got = filtered(rt, alloc, file, &filter, &raw);
    let of = format!(in alloc; "{text} of {block}").expect(rt, "memory");
    same_text(rt, got.as_str(), want, of.as_str());
}
