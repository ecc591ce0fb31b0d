//! Blocks that fit a specification and those that don't, and copies of both.

use crate::texts::read;
use ax_model::{Block, Entries, Entry, Lists, Octets, Record, Records, Spec, Value, Values, fits};
use std::alloc::Global;
use std::process::Abort;

// An item of each kind; slot 2 of the UAP is spare.
const EACH_KIND: &str = r#"category 205 edition "" items {
item 010 "" group { A element 4 raw B element 4 raw }
item 020 "" extended { part { A element 4 raw spare 3 } }
item 030 "" counted { element 8 raw }
item 040 "" byfx element 7 raw
item 050 "" explicit
item 060 "" compound { A element 8 raw - B element 16 raw }
} uap { 010 - 020 030 040 050 060 }"#;

fn each_kind(rt: &impl Abort, alloc: Global) -> Spec {
    read(rt, alloc, EACH_KIND)
}

fn put(rt: &impl Abort, made: &mut Values, number: u128) {
    if made.count() < 1000 {
        made.push(Value::Number(number)).expect(rt, "memory");
    }
}

fn numbers(rt: &impl Abort, alloc: Global, numbers: &[u128]) -> Values {
    let mut made = Values::new(alloc);
    for number in numbers {
        put(rt, &mut made, *number);
    }
    made
}

fn lists(rt: &impl Abort, alloc: Global, one: &[u128], count: u32) -> Lists {
    let mut made = Lists::new(alloc);
    for _index in 0..count {
        if made.count() < 1000 {
            let one = numbers(rt, alloc, one);
            made.push(one).expect(rt, "memory");
        }
    }
    made
}

fn repeated(rt: &impl Abort, alloc: Global, number: u128, count: u32) -> Values {
    let mut made = Values::new(alloc);
    for _index in 0..count {
        put(rt, &mut made, number);
    }
    made
}

fn zeros(rt: &impl Abort, alloc: Global, count: u32) -> Octets {
    let mut made = Octets::new(alloc);
    for _index in 0..count {
        if made.count() < 1000 {
            made.push(0).expect(rt, "memory");
        }
    }
    made
}

fn entries(rt: &impl Abort, alloc: Global, marked: &[(u32, u128)]) -> Entries {
    let mut made = Entries::new(alloc);
    for (slot, number) in marked {
        if made.count() < 1000 {
            made.push(Entry {
                slot: *slot,
                value: Value::Number(*number),
            })
            .expect(rt, "memory");
        }
    }
    made
}

fn one_record(rt: &impl Abort, alloc: Global, category: u8, entries: Entries) -> Block {
    let mut records = Records::new(alloc);
    records.push(Record { entries }).expect(rt, "memory");
    Block::Read { category, records }
}

fn one_item(rt: &impl Abort, alloc: Global, slot: u32, value: Value) -> Block {
    let mut entries = Entries::new(alloc);
    entries.push(Entry { slot, value }).expect(rt, "memory");
    one_record(rt, alloc, 205, entries)
}

// A value in few words: the numbers of a group, of each list, of each occurrence, of each slot.
#[derive(Clone, Copy)]
enum Form<'v> {
    Number(u128),
    Group(&'v [u128]),
    Lists(&'v [u128], u32),
    Repeat(u128, u32),
    Zeros(u32),
    Marked(&'v [(u32, u128)]),
}

fn value_of(rt: &impl Abort, alloc: Global, form: Form<'_>) -> Value {
    match form {
        Form::Number(number) => Value::Number(number),
        Form::Group(values) => Value::Group(numbers(rt, alloc, values)),
        Form::Lists(one, count) => Value::Extended(lists(rt, alloc, one, count)),
        Form::Repeat(number, count) => Value::Repeat(repeated(rt, alloc, number, count)),
        Form::Zeros(count) => Value::Octets(zeros(rt, alloc, count)),
        Form::Marked(marked) => Value::Compound(entries(rt, alloc, marked)),
    }
}

// Each way not to fit, beside its nearest that fits.
const FORMS: [(u32, Form<'static>, bool); 21] = [
    (1, Form::Group(&[15, 0]), true),
    (1, Form::Group(&[15, 16]), false),
    (1, Form::Group(&[15]), false),
    (1, Form::Group(&[15, 0, 0]), false),
    (1, Form::Number(0), false),
    (2, Form::Number(0), false),
    (3, Form::Lists(&[15, 7], 1), true),
    (3, Form::Lists(&[15, 8], 1), false),
    (3, Form::Lists(&[15, 7], 0), false),
    (3, Form::Lists(&[15, 7], 2), false),
    (4, Form::Repeat(255, 255), true),
    (4, Form::Repeat(255, 256), false),
    (4, Form::Repeat(256, 1), false),
    (5, Form::Repeat(127, 1), true),
    (5, Form::Repeat(127, 0), false),
    (6, Form::Zeros(254), true),
    (6, Form::Zeros(255), false),
    (7, Form::Marked(&[(1, 255), (3, 65535)]), true),
    (7, Form::Marked(&[(3, 0), (1, 0)]), false),
    (7, Form::Marked(&[(1, 0), (2, 0)]), false),
    (8, Form::Number(0), false),
];

/// Asserts that a block fits, or doesn't.
fn block_fits(rt: &impl Abort, spec: &Spec, block: &Block, want: bool, of: u32) {
    assert!(rt; fits(spec, block) == want, "of {of}");
}

/// Asserts that a block of one record with that value in that slot fits, or doesn't.
fn value_fits(
    rt: &impl Abort,
    alloc: Global,
    spec: &Spec,
    (slot, form): (u32, Form<'_>),
    want: bool,
) {
    let value = value_of(rt, alloc, form);
    let block = one_item(rt, alloc, slot, value);
    block_fits(rt, spec, &block, want, slot);
}

#[test]
fn values_fit_by_their_kinds(rt: HostRuntime) {
    let alloc = rt.alloc();
    let spec = each_kind(&rt, alloc);
    for &(slot, form, want) in &FORMS {
        value_fits(&rt, alloc, &spec, (slot, form), want);
    }
}

fn opaque(rt: &impl Abort, alloc: Global, category: u8, count: u32) -> Block {
    let octets = zeros(rt, alloc, count);
    Block::Opaque { category, octets }
}

/// Asserts that an opaque block of that category and of so many octets fits, or doesn't.
fn opaque_fits(
    rt: &impl Abort,
    alloc: Global,
    spec: &Spec,
    (category, count): (u8, u32),
    want: bool,
) {
    let block = opaque(rt, alloc, category, count);
    block_fits(rt, spec, &block, want, u32::from(category));
}

const OPAQUE: [(u8, u32, bool); 3] = [(205, 1, false), (204, 1, true), (204, 0, false)];

#[test]
fn opaque_blocks_fit_by_their_category(rt: HostRuntime) {
    let alloc = rt.alloc();
    let spec = each_kind(&rt, alloc);
    for &(category, count, want) in &OPAQUE {
        opaque_fits(&rt, alloc, &spec, (category, count), want);
    }
}

/// Asserts that a block of that category with one empty record fits, or doesn't.
fn empty_record_fits(rt: &impl Abort, alloc: Global, spec: &Spec, category: u8, want: bool) {
    let block = one_record(rt, alloc, category, Entries::new(alloc));
    block_fits(rt, spec, &block, want, u32::from(category));
}

#[test]
fn blocks_of_records_fit_by_their_category(rt: HostRuntime) {
    let alloc = rt.alloc();
    let spec = each_kind(&rt, alloc);
    empty_record_fits(&rt, alloc, &spec, 205, true);
    empty_record_fits(&rt, alloc, &spec, 204, false);
    let none = Block::Read {
        category: 205,
        records: Records::new(alloc),
    };
    block_fits(&rt, &spec, &none, false, 205);
}

fn value_copied(rt: &impl Abort, alloc: Global) -> Value {
    let value = Value::Extended(lists(rt, alloc, &[15, 7], 1));
    value.copy(alloc).expect(rt, "memory")
}

fn block_copied(rt: &impl Abort, alloc: Global) -> Block {
    let value = value_copied(rt, alloc);
    let block = one_item(rt, alloc, 3, value);
    block.copy(alloc).expect(rt, "memory")
}

fn opaque_copied(rt: &impl Abort, alloc: Global) -> Block {
    let block = opaque(rt, alloc, 7, 3);
    block.copy(alloc).expect(rt, "memory")
}

fn spec_copied(rt: &impl Abort, alloc: Global) -> Spec {
    let spec = each_kind(rt, alloc);
    spec.copy(alloc).expect(rt, "memory")
}

// The copies fit each other as the originals do.
#[test]
fn copies_stand_for_their_originals(rt: HostRuntime) {
    let alloc = rt.alloc();
    let spec = spec_copied(&rt, alloc);
    assert!(rt; spec.category == 205 && spec.items.count() == 6 && spec.uap.count() == 7);
    let block = block_copied(&rt, alloc);
    block_fits(&rt, &spec, &block, true, 205);
    let opaque = opaque_copied(&rt, alloc);
    block_fits(&rt, &spec, &opaque, true, 7);
}
