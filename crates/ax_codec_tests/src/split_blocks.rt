//! Rows of blocks that are split. A record of `n` occurrences of one octet has `n + 3` octets: one of its FSPEC, and two of the
//! counter; a block has three more.
ghost use Rattle.ax_rescale.specs.Splits.{IsRead};

use ax_check::{Accepted, accept};
use ax_model::{
    Block, Content, Counter, Entries, Entry, Fixed, Item, Items, Kind, Name, Record, Records, Spec,
    Text, UapSlot, UapSlots, Value, Values, fits,
};
use ax_rescale::{Pieces, SplitError, split};
use std::alloc::Global;
use std::process::Abort;

const CATEGORY: u8 = 205;

/// The occurrences of each record of a block, and those of each record of its pieces.
static SPLIT: [(&[u32], &str); 9] = [
    (&[5], "[5]"),
    (&[0], "[0]"),
    (&[65_529], "[65529]"),
    (&[65_529, 0], "[65529][0]"),
    (&[32_763, 32_763], "[32763 32763]"),
    (&[32_763, 32_764], "[32763][32764]"),
    (&[40_000, 30_000, 30_000, 7], "[40000][30000 30000 7]"),
    (&[40_000, 40_000, 40_000], "[40000][40000][40000]"),
    (&[3, 65_526, 1, 2], "[3][65526][1 2]"),
];

/// Blocks of which a record has too many octets for a block of its own.
static TOO_LONG: [(&[u32], &str); 4] = [
    (&[65_530], "a record's block has 65536 octets"),
    (&[65_529, 65_530], "a record's block has 65536 octets"),
    (&[1, 65_535, 65_530], "a record's block has 65541 octets"),
    (
        &[40_000, 40_000, 65_531, 65_535],
        "a record's block has 65537 octets",
    ),
];

fn name(rt: &impl Abort) -> Name {
    Name::of(b"010").expect(rt, "a name")
}

fn item(rt: &impl Abort, alloc: Global) -> Item {
    let octet = Kind::Fixed(Fixed::Element {
        width: 8,
        content: Content::Raw,
    });
    let inner = Box::new(alloc, octet).expect(rt, "memory");
    Item {
        name: name(rt),
        title: Text::new(alloc),
        kind: Kind::Counted {
            counter: Counter::Two,
            inner,
        },
    }
}

/// A specification of one item.
fn one_item(rt: &impl Abort, alloc: Global) -> Accepted {
    let mut edition = Text::new(alloc);
    edition.push(b'S').expect(rt, "memory");
    let mut spec = Spec {
        category: CATEGORY,
        edition,
        items: Items::new(alloc),
        uap: UapSlots::new(alloc),
    };
    spec.items.push(item(rt, alloc)).expect(rt, "memory");
    spec.uap.push(UapSlot::Item(name(rt))).expect(rt, "memory");
    accept(alloc, spec).expect(rt, "no flaw")
}

fn record(rt: &impl Abort, alloc: Global, occurrences: u32) -> Record {
    let mut values = Values::new(alloc);
    for _ in 0..occurrences {
        assert!(rt; values.count() < 65_535);
        values.push(Value::Number(7)).expect(rt, "memory");
    }
    let mut entries = Entries::new(alloc);
    let value = Value::Repeat(values);
    entries.push(Entry { slot: 1, value }).expect(rt, "memory");
    Record { entries }
}

fn block(rt: &impl Abort, alloc: Global, counts: &[u32]) -> Block
    ensures { IsRead result }
{
    let mut records = Records::new(alloc);
    for count in counts {
        assert!(rt; records.count() < 100);
        let one = record(rt, alloc, *count);
        records.push(one).expect(rt, "memory");
    }
    Block::Read {
        category: CATEGORY,
        records,
    }
}

fn push_record(rt: &impl Abort, text: &mut String, mark: &str, one: &Record) {
    text.push_str(mark).expect(rt, "memory");
    for entry in one.entries.as_slice() {
        if let Value::Repeat(values) = &entry.value {
            let count = values.count();
            write!(text, "{count}").expect(rt, "memory");
        }
    }
}

fn push_records(rt: &impl Abort, text: &mut String, records: &Records) {
    text.push_str("[").expect(rt, "memory");
    let mut mark = "";
    for one in records.as_slice() {
        push_record(rt, text, mark, one);
        mark = " ";
    }
    text.push_str("]").expect(rt, "memory");
}

fn shown_pieces(rt: &impl Abort, alloc: Global, pieces: &Pieces) -> String {
    let mut text = String::new(alloc);
    for piece in pieces.as_slice() {
        if let Block::Read { records, .. } = piece {
            push_records(rt, &mut text, records);
        }
    }
    text
}

fn shown(rt: &impl Abort, alloc: Global, answer: Result<Pieces, SplitError>) -> String {
    match answer {
        Ok(pieces) => shown_pieces(rt, alloc, &pieces),
        Err(e) => format!(in alloc; "{e}").expect(rt, "memory"),
    }
}

/// Asserts what the block of such records is split into.
fn rows_are(rt: &impl Abort, alloc: Global, rows: &[(&[u32], &str)]) {
    let file = one_item(rt, alloc);
    let spec = file.spec();
    for (counts, want) in rows {
        let whole = block(rt, alloc, counts);
        assert!(rt; fits(spec, &whole));
        let got = shown(rt, alloc, split(alloc, spec, whole));
        assert_eq!(rt; got.as_str(), *want);
    }
}

#[test]
fn blocks_are_full(rt: HostRuntime) {
    rows_are(&rt, rt.alloc(), &SPLIT);
}

#[test]
fn the_first_record_that_is_too_long_is_told(rt: HostRuntime) {
    rows_are(&rt, rt.alloc(), &TOO_LONG);
}
