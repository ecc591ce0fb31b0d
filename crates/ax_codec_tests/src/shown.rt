//! Values, records and blocks as lines of text, so that tests compare them whole.

use ax_model::{Block, BodyFault, Entries, Lists, Octets, Record, Value, Values};
use ax_values::DecodeError;
use std::alloc::Global;
use std::process::Abort;

/// Puts a piece at the end of a text.
pub(crate) fn push(rt: &impl Abort, text: &mut String, piece: &str) {
    text.push_str(piece).expect(rt, "memory");
}

/// Puts a number at the end of a text.
pub(crate) fn push_number(rt: &impl Abort, text: &mut String, number: u128) {
    write!(text, "{number}").expect(rt, "memory");
}

fn push_octet(rt: &impl Abort, text: &mut String, octet: u8) {
    write!(text, "{octet:02X}").expect(rt, "memory");
}

/// Octets in hexadecimal, with a space between.
pub(crate) fn push_octets(rt: &impl Abort, text: &mut String, octets: &[u8]) {
    let mut mark = "";
    for octet in octets {
        push(rt, text, mark);
        push_octet(rt, text, *octet);
        mark = " ";
    }
}

/// Octets in hexadecimal, with a space between.
pub(crate) fn shown_octets(rt: &impl Abort, alloc: Global, octets: &[u8]) -> String {
    let mut text = String::new(alloc);
    push_octets(rt, &mut text, octets);
    text
}

// A mark before each piece but the first.
fn push_between(rt: &impl Abort, text: &mut String, is_first: bool, mark: &str) {
    if !is_first {
        push(rt, text, mark);
    }
}

#[cycle(push_value)]
fn push_values(rt: &impl Abort, text: &mut String, open: &str, values: &Values, close: &str) {
    push(rt, text, open);
    let mut is_first = true;
    for value in values.as_slice() {
        push_between(rt, text, is_first, " ");
        push_value(rt, text, value);
        is_first = false;
    }
    push(rt, text, close);
}

#[cycle(push_value)]
fn push_lists(rt: &impl Abort, text: &mut String, lists: &Lists) {
    push(rt, text, "<");
    let mut is_first = true;
    for values in lists.as_slice() {
        push_between(rt, text, is_first, "|");
        push_values(rt, text, "", values, "");
        is_first = false;
    }
    push(rt, text, ">");
}

#[cycle(push_value)]
fn push_entries(rt: &impl Abort, text: &mut String, entries: &Entries) {
    push(rt, text, "{");
    let mut is_first = true;
    for entry in entries.as_slice() {
        push_between(rt, text, is_first, " ");
        push_number(rt, text, u128::from(entry.slot));
        push(rt, text, "=");
        push_value(rt, text, &entry.value);
        is_first = false;
    }
    push(rt, text, "}");
}

// Octets of a length of their own.
fn push_counted(rt: &impl Abort, text: &mut String, octets: &Octets) {
    push(rt, text, "x");
    push_octets(rt, text, octets.as_slice());
}

/// A number; a group as (1 2); the parts of an extended item as <1 2|3>; occurrences as [1 2]; octets as x01 02; the
/// slots of a compound as {1=1 3=2}.
#[cycle(push_value)]
pub(crate) fn push_value(rt: &impl Abort, text: &mut String, value: &Value) {
    match value {
        Value::Number(number) => push_number(rt, text, *number),
        Value::Group(values) => push_values(rt, text, "(", values, ")"),
        Value::Extended(lists) => push_lists(rt, text, lists),
        Value::Repeat(values) => push_values(rt, text, "[", values, "]"),
        Value::Octets(octets) => push_counted(rt, text, octets),
        Value::Compound(entries) => push_entries(rt, text, entries),
    }
}

/// A record, as a compound is shown.
pub(crate) fn push_record(rt: &impl Abort, text: &mut String, one: &Record) {
    push_entries(rt, text, &one.entries);
}

/// A category, with a space after it.
pub(crate) fn push_category(rt: &impl Abort, text: &mut String, category: u8) {
    push_number(rt, text, u128::from(category));
    push(rt, text, " ");
}

/// A block: its category and its records, or its octets where it is opaque.
fn push_block(rt: &impl Abort, text: &mut String, block: &Block) {
    match block {
        Block::Read { category, records } => {
            push_category(rt, text, *category);
            for one in records.as_slice() {
                push_record(rt, text, one);
            }
        }
        Block::Opaque { category, octets } => {
            push_category(rt, text, *category);
            push_counted(rt, text, octets);
        }
    }
}

/// A block: its category and its records, or its octets where it is opaque.
pub(crate) fn shown_block(rt: &impl Abort, alloc: Global, block: &Block) -> String {
    let mut text = String::new(alloc);
    push_block(rt, &mut text, block);
    text
}

/// A fault: its cause and its bit.
pub(crate) fn shown_fault(rt: &impl Abort, alloc: Global, fault: &BodyFault) -> String {
    let cause = fault.cause;
    let bit = fault.bit;
    format!(in alloc; "{cause:?} {bit}").expect(rt, "memory")
}

/// A fault. Want of memory stops the test.
pub(crate) fn shown_error(rt: &impl Abort, alloc: Global, error: &DecodeError) -> String {
    match error {
        DecodeError::Fault(fault) => shown_fault(rt, alloc, fault),
        DecodeError::OutOfMemory => rt.panic("out of memory"),
    }
}
