//! Contents of RE: read, written and printed by an expansion file.

use crate::checks::same_octets;
use crate::expansions::{accepted, with_form};
use crate::text_fixtures::octets_of;
use crate::texts::same;
use ax_expand::{
    AcceptedExpansion, EncodeError, Form, accept_expansion, decode_content, encode_content,
    fits_content,
};
use ax_model::{Block, Entries, Entry, Record, Records, Value, Values, fits};
use ax_text::block_text;
use std::alloc::Global;
use std::process::Abort;

const ONE: &str =
    r#"expansion 048 edition "T1" fixed 1 { A element 8 raw - B counted { element 8 raw } }"#;

const TWO: &str = r#"expansion 048 edition "T2" fixed 2 { A element 8 raw }"#;

const BY_FX: &str =
    r#"expansion 048 edition "T3" fx { A element 8 raw - - - - - - B element 8 raw }"#;

// Files, contents, their canonical octets, and the lines of blocks with one record of the item RE.
const SPELLED: [(&str, &str, &str, &str); 10] = [
    (
        ONE,
        "80 05",
        "80 05",
        "block 048 { record { RE { A 5 } } }\n",
    ),
    (ONE, "00", "00", "block 048 { record { RE { } } }\n"),
    (
        ONE,
        "20 02 AA BB",
        "20 02 AA BB",
        "block 048 { record { RE { B { 170 187 } } } }\n",
    ),
    (
        ONE,
        "A0 05 01 07",
        "A0 05 01 07",
        "block 048 { record { RE { A 5 B { 7 } } } }\n",
    ),
    (
        TWO,
        "80 00 05",
        "80 00 05",
        "block 048 { record { RE { A 5 } } }\n",
    ),
    (
        BY_FX,
        "81 00 05",
        "80 05",
        "block 048 { record { RE { A 5 } } }\n",
    ),
    (
        BY_FX,
        "80 05",
        "80 05",
        "block 048 { record { RE { A 5 } } }\n",
    ),
    (BY_FX, "00", "00", "block 048 { record { RE { } } }\n"),
    (
        BY_FX,
        "01 80 05",
        "01 80 05",
        "block 048 { record { RE { B 5 } } }\n",
    ),
    (
        BY_FX,
        "81 80 05 06",
        "81 80 05 06",
        "block 048 { record { RE { A 5 B 6 } } }\n",
    ),
];

// Files, contents, and their faults.
const FAULTY: [(&str, &str, &str); 14] = [
    (ONE, "", "RunsOut at bit 0"),
    (ONE, "40 05", "UndefinedSlot at bit 1"),
    (ONE, "C0 05", "UndefinedSlot at bit 1"),
    (ONE, "10 05", "UndefinedSlot at bit 3"),
    (ONE, "80", "RunsOut at bit 8"),
    (ONE, "20 02 AA", "RunsOut at bit 24"),
    (ONE, "80 05 07", "TrailingOctets at bit 16"),
    (ONE, "00 07", "TrailingOctets at bit 8"),
    (TWO, "80", "RunsOut at bit 8"),
    (TWO, "80 05", "UndefinedSlot at bit 13"),
    (BY_FX, "", "RunsOut at bit 0"),
    (BY_FX, "81", "RunsOut at bit 8"),
    (BY_FX, "81 01 00 05", "PresenceTooLong at bit 15"),
    (BY_FX, "00 07", "TrailingOctets at bit 8"),
];

fn decoded(rt: &impl Abort, alloc: Global, x: &AcceptedExpansion, content: &[u8]) -> Value {
    assert!(rt; content.len() <= 254);
    decode_content(alloc, x, content).expect(rt, "a value")
}

fn encoded(rt: &impl Abort, alloc: Global, x: &AcceptedExpansion, value: &Value) -> Vec<u8> {
    assert!(rt; fits_content(x, value));
    encode_content(alloc, x, value).expect(rt, "a content")
}

/// A block of one record that has the item RE alone.
fn block_of(rt: &impl Abort, alloc: Global, value: Value) -> Block {
    let mut entries = Entries::new(alloc);
    entries.push(Entry { slot: 1, value }).expect(rt, "memory");
    let mut records = Records::new(alloc);
    records.push(Record { entries }).expect(rt, "memory");
    Block::Read {
        category: 48,
        records,
    }
}

/// Asserts that a value is printed so under the specification that stands for the expansion.
fn is_printed(rt: &impl Abort, alloc: Global, x: &AcceptedExpansion, value: Value, wanted: &str) {
    let block = block_of(rt, alloc, value);
    assert!(rt; fits(x.wrapped(), &block));
    let line = block_text(alloc, x.wrapped(), &block).expect(rt, "memory");
    same_octets(rt, &line, wanted.as_bytes(), wanted);
}

#[test]
fn contents_are_read_written_and_printed(rt: HostRuntime) {
    let alloc = rt.alloc();
    for &(file, content, canonical, line) in &SPELLED {
        let x = accepted(&rt, alloc, file);
        let value = decoded(&rt, alloc, &x, &octets_of(&rt, alloc, content));
        let made = encoded(&rt, alloc, &x, &value);
        same_octets(&rt, &made, &octets_of(&rt, alloc, canonical), content);
        is_printed(&rt, alloc, &x, value, line);
    }
}

/// Asserts that a content has that fault.
fn is_faulty(rt: &impl Abort, alloc: Global, x: &AcceptedExpansion, content: &[u8], wanted: &str) {
    assert!(rt; content.len() <= 254);
    match decode_content(alloc, x, content) {
        Ok(_) => panic!(rt; "no fault: {wanted}"),
        Err(error) => {
            let told = format!(in alloc; "{error}").expect(rt, "memory");
            same(rt, told.as_str(), wanted, "a content");
        }
    }
}

#[test]
fn faults_of_contents_are_named(rt: HostRuntime) {
    let alloc = rt.alloc();
    for &(file, content, wanted) in &FAULTY {
        let x = accepted(&rt, alloc, file);
        is_faulty(&rt, alloc, &x, &octets_of(&rt, alloc, content), wanted);
    }
}

/// An entry of slot 3 with so many occurrences.
fn occurrences(rt: &impl Abort, alloc: Global, count: u32) -> Value {
    let mut made = Values::new(alloc);
    for _index in 0..count {
        if made.count() < 1000 {
            made.push(Value::Number(17)).expect(rt, "memory");
        }
    }
    let mut entries = Entries::new(alloc);
    let value = Value::Repeat(made);
    entries.push(Entry { slot: 3, value }).expect(rt, "memory");
    Value::Compound(entries)
}

#[test]
fn a_content_has_at_most_254_octets(rt: HostRuntime) {
    let alloc = rt.alloc();
    let x = accepted(&rt, alloc, ONE);
    let most = occurrences(&rt, alloc, 252);
    let made = encoded(&rt, alloc, &x, &most);
    let value = decoded(&rt, alloc, &x, &made);
    let again = encoded(&rt, alloc, &x, &value);
    assert_eq!(&rt; made.len(), 254);
    same_octets(&rt, &again, &made, "252 occurrences");
}

/// Asserts that a value is too long, with the number of its octets.
fn is_too_long(rt: &impl Abort, alloc: Global, x: &AcceptedExpansion, value: &Value, wanted: u64) {
    assert!(rt; fits_content(x, value));
    match encode_content(alloc, x, value) {
        Err(EncodeError::TooLong { octets }) => assert_eq!(rt; octets, wanted),
        _ => panic!(rt; "not too long"),
    }
}

#[test]
fn more_octets_are_counted(rt: HostRuntime) {
    let alloc = rt.alloc();
    let x = accepted(&rt, alloc, ONE);
    let value = occurrences(&rt, alloc, 253);
    is_too_long(&rt, alloc, &x, &value, 255);
}

#[test]
fn a_form_of_the_greatest_number_is_counted(rt: HostRuntime) {
    let alloc = rt.alloc();
    let one = with_form(&rt, alloc, ONE, Form::Fixed(u32::MAX));
    let x = accept_expansion(alloc, one).expect(&rt, "no flaw");
    is_faulty(&rt, alloc, &x, &[0x80], "RunsOut at bit 8");
    let value = occurrences(&rt, alloc, 1);
    is_too_long(&rt, alloc, &x, &value, 4_294_967_297);
}

#[test]
fn other_values_do_not_fit(rt: HostRuntime) {
    let alloc = rt.alloc();
    let x = accepted(&rt, alloc, BY_FX);
    assert!(&rt; !fits_content(&x, &Value::Number(5)));
    assert!(&rt; !fits_content(&x, &occurrences(&rt, alloc, 1)));
}
