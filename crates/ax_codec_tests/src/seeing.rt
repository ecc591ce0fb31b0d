//! Bodies read by trees, and seen through views by the flat table of their file.
ghost use Rattle.ax_model.specs.OfCode.{HasNoFlaw};

use crate::fixtures::{accepted, codec_of, octets_of, raw_of, same};
use crate::shown::{push_category, push_record, shown_block, shown_error, shown_fault};
use ax_check::Accepted;
use ax_model::{RawBlock, Record, Spec};
use ax_tables::Codec;
use ax_values::decode_block;
use ax_view::{BlockView, RecordView, ToValue, scan};
use std::alloc::Global;
use std::process::Abort;

/// The tree of a record that is seen.
fn tree_of(rt: &impl Abort, alloc: Global, record: &RecordView<'_, '_>) -> Record {
    record.to_value(alloc).expect(rt, "memory")
}

/// The records of a view, shown as a block of trees is.
fn push_records(rt: &impl Abort, alloc: Global, text: &mut String, view: &BlockView<'_, '_>) {
    let mut count: u32 = 0;
    for record in view.records() {
        push_record(rt, text, &tree_of(rt, alloc, &record));
        count = count.saturating_add(1);
    }
    assert_eq!(rt; view.count(), count);
}

/// The block that a body of the table's category is seen as, or its fault, in a line.
fn seen(rt: &impl Abort, alloc: Global, codec: &Codec, body: &[u8]) -> String {
    assert!(rt; !body.is_empty());
    assert!(rt; body.len() <= 65_532);
    match scan(codec, body) {
        Ok(view) => {
            let mut text = String::new(alloc);
            push_category(rt, &mut text, codec.category());
            push_records(rt, alloc, &mut text, &view);
            text
        }
        Err(fault) => shown_fault(rt, alloc, &fault),
    }
}

/// The block that a body is read as by trees, or its fault, in a line.
fn read(rt: &impl Abort, alloc: Global, spec: &Spec, raw: &RawBlock<'_>) -> String
    requires { HasNoFlaw spec.now }
{
    match decode_block(alloc, spec, raw) {
        Ok(block) => shown_block(rt, alloc, &block),
        Err(error) => shown_error(rt, alloc, &error),
    }
}

/// The block that a body is read as, by trees and, where it is of the file's category, by views alike; or its fault, in a
/// line. The text tells of what.
pub(crate) fn read_both_ways(
    rt: &impl Abort,
    alloc: Global,
    file: &Accepted,
    raw: &RawBlock<'_>,
    of: &str,
) -> String {
    let read = read(rt, alloc, file.spec(), raw);
    if raw.category == file.spec().category {
        let codec = codec_of(rt, alloc, file);
        let seen = seen(rt, alloc, &codec, raw.body);
        same(rt, seen.as_str(), read.as_str(), of);
    }
    read
}

/// Asserts that octets in hexadecimal are read as that block or fault, by trees and by views alike.
pub(crate) fn is_read_as(rt: &impl Abort, alloc: Global, file: &Accepted, block: &str, want: &str) {
    let octets = octets_of(rt, alloc, block);
    let raw = raw_of(rt, &octets, block);
    let got = read_both_ways(rt, alloc, file, &raw, block);
    same(rt, got.as_str(), want, block);
}

/// Asserts of each file, block and text that the block is read as that block or fault under the file.
pub(crate) fn each_is_read(rt: &impl Abort, alloc: Global, rows: &[(&str, &str, &str)]) {
    for &(text, block, want) in rows {
        let file = accepted(rt, alloc, text);
        is_read_as(rt, alloc, &file, block, want);
    }
}

/// The same of blocks and texts under one file.
pub(crate) fn each_of_file_is_read(
    rt: &impl Abort,
    alloc: Global,
    text: &str,
    rows: &[(&str, &str)],
) {
    let file = accepted(rt, alloc, text);
    for &(block, want) in rows {
        is_read_as(rt, alloc, &file, block, want);
    }
}
