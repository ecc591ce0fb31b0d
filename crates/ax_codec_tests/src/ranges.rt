//! Some of the records of a view in another edition: as many as come into one block, and the block of some.
ghost use Rattle.std.specs.Prelude.{◌≡◌, ◌+◌};
ghost use Rattle.ax_migrate_views.specs.Ranges.{HasRecords};
ghost use Rattle.ax_relation.specs.Relates.{Relates};

use crate::edition_fixtures::{Edition, Editions, both, same};
use crate::fixtures::{octets_of, raw_of};
use ax_bits::Out;
use ax_edition::{Relation, relate};
use ax_migrate_views::{Fit, Migrator};
use ax_tables::compile;
use ax_view::{BlockView, scan};
use std::alloc::Global;
use std::process::Abort;

/// Octets of the longest data block.
const LONGEST: u32 = 65_535;

/// A block in hexadecimal: its first octets, how many times others follow, which these are, and its last octets.
#[derive(Clone, Copy)]
struct Shape {
    front: &'static str,
    times: usize,
    unit: &'static str,
    after: &'static str,
}

// Records with an item, and one without.
const FEW: Shape = Shape {
    front: "C9 00 0A 80 11 00 80 22 80 33",
    times: 0,
    unit: "",
    after: "",
};

const MANY: Shape = Shape {
    front: "C9 FF FF",
    times: 32_766,
    unit: "80 01",
    after: "",
};

const MANY_AFTER_TWO: Shape = Shape {
    front: "C9 AA AD 00 00",
    times: 21_844,
    unit: "80 01",
    after: "",
};

const LOSING: Shape = Shape {
    front: "CA 00 0D 80 C0 11 22 33 80 C0 44 55 66",
    times: 0,
    unit: "",
    after: "",
};

// A record of many occurrences alone, before one of one octet, and behind one of two.
const LONG: Shape = Shape {
    front: "D0 FF FF 80",
    times: 65_530,
    unit: "01",
    after: "00",
};

const LONG_FIRST: Shape = Shape {
    front: "D0 FF FF 80",
    times: 65_529,
    unit: "01",
    after: "00 00",
};

const LONG_LAST: Shape = Shape {
    front: "D0 FF FF 80 00 80",
    times: 65_528,
    unit: "01",
    after: "00",
};

/// What is asked of the records of a view from one of them on, and the answer.
#[derive(Clone, Copy)]
enum Asked {
    /// How many come into one block, and how many octets it has.
    Fit(u32, u32),
    /// How many there are of which the block is laid, and the block in hexadecimal.
    Block(u32, &'static str),
}

// The old edition, the new one, a block of the old one, the number of a record, and what is asked from it on.
static ROWS: [(Edition, Edition, Shape, u32, Asked); 30] = [
    (Edition::G1, Edition::G2, FEW, 0, Asked::Fit(4, 13)),
    (Edition::G1, Edition::G2, FEW, 1, Asked::Fit(3, 10)),
    (Edition::G1, Edition::G2, FEW, 2, Asked::Fit(2, 9)),
    (Edition::G1, Edition::G2, FEW, 3, Asked::Fit(1, 6)),
    // Three octets of each record, 21,844 times, and three more are the most octets of a block.
    (
        Edition::G1,
        Edition::G2,
        MANY,
        0,
        Asked::Fit(21_844, 65_535),
    ),
    (
        Edition::G1,
        Edition::G2,
        MANY,
        10_000,
        Asked::Fit(21_844, 65_535),
    ),
    (
        Edition::G1,
        Edition::G2,
        MANY,
        10_922,
        Asked::Fit(21_844, 65_535),
    ),
    (
        Edition::G1,
        Edition::G2,
        MANY,
        10_923,
        Asked::Fit(21_843, 65_532),
    ),
    (
        Edition::G1,
        Edition::G2,
        MANY,
        21_844,
        Asked::Fit(10_922, 32_769),
    ),
    (Edition::G1, Edition::G2, MANY, 32_765, Asked::Fit(1, 6)),
    // One and two octets are left of those, and the next record has three.
    (
        Edition::G1,
        Edition::G2,
        MANY_AFTER_TWO,
        0,
        Asked::Fit(21_845, 65_534),
    ),
    (
        Edition::G1,
        Edition::G2,
        MANY_AFTER_TWO,
        1,
        Asked::Fit(21_844, 65_533),
    ),
    (
        Edition::G1,
        Edition::G2,
        MANY_AFTER_TWO,
        2,
        Asked::Fit(21_844, 65_535),
    ),
    // A record that is too long has one octet more of presence in slot 8, and seventeen more in slot 126.
    (Edition::J1, Edition::J2, LONG, 0, Asked::Fit(0, 65_536)),
    (Edition::J1, Edition::J1, LONG, 0, Asked::Fit(1, 65_535)),
    (
        Edition::J1,
        Edition::J2,
        LONG_FIRST,
        0,
        Asked::Fit(1, 65_535),
    ),
    (Edition::J1, Edition::J2, LONG_FIRST, 1, Asked::Fit(1, 4)),
    (
        Edition::J1,
        Edition::J3,
        LONG_FIRST,
        0,
        Asked::Fit(0, 65_551),
    ),
    (Edition::J1, Edition::J3, LONG_FIRST, 1, Asked::Fit(1, 4)),
    (Edition::J1, Edition::J3, LONG_LAST, 0, Asked::Fit(1, 22)),
    (
        Edition::J1,
        Edition::J3,
        LONG_LAST,
        1,
        Asked::Fit(0, 65_550),
    ),
    // Blocks of all records, of some at each end and between, and of one.
    (
        Edition::G1,
        Edition::G2,
        FEW,
        0,
        Asked::Block(4, "C9 00 0D 01 80 11 00 01 80 22 01 80 33"),
    ),
    (
        Edition::G1,
        Edition::G2,
        FEW,
        0,
        Asked::Block(2, "C9 00 07 01 80 11 00"),
    ),
    (
        Edition::G1,
        Edition::G2,
        FEW,
        1,
        Asked::Block(2, "C9 00 07 00 01 80 22"),
    ),
    (
        Edition::G1,
        Edition::G2,
        FEW,
        2,
        Asked::Block(2, "C9 00 09 01 80 22 01 80 33"),
    ),
    (
        Edition::G1,
        Edition::G2,
        FEW,
        1,
        Asked::Block(1, "C9 00 04 00"),
    ),
    (
        Edition::G1,
        Edition::G2,
        FEW,
        3,
        Asked::Block(1, "C9 00 06 01 80 33"),
    ),
    (
        Edition::G1,
        Edition::G2,
        MANY,
        32_764,
        Asked::Block(2, "C9 00 09 01 80 01 01 80 01"),
    ),
    // What is lost is in no block.
    (
        Edition::H1,
        Edition::H2,
        LOSING,
        1,
        Asked::Block(1, "CA 00 07 80 80 55 66"),
    ),
    (Edition::H1, Edition::H2, LOSING, 0, Asked::Fit(2, 11)),
];

/// The octets of a block.
fn block_of(rt: &impl Abort, alloc: Global, shape: Shape) -> Vec<u8> {
    let mut made = octets_of(rt, alloc, shape.front);
    let unit = octets_of(rt, alloc, shape.unit);
    for _ in 0..shape.times {
        made.extend_from_slice(&unit).expect(rt, "memory");
    }
    let after = octets_of(rt, alloc, shape.after);
    made.extend_from_slice(&after).expect(rt, "memory");
    made
}

/// Some of the records of a view: the number of the first one, and how many they are.
#[derive(Clone, Copy)]
struct Part {
    from: u32,
    count: u32,
}

/// Asserts that a view has those records.
fn has_records(rt: &impl Abort, migrator: &Migrator<'_>, view: &BlockView<'_, '_>, part: Part)
    requires view { view.now.codec.now ≡ migrator.now.codec.now }
    ensures { HasRecords migrator.now view.now.body.now (part.from + part.count) }
{
    let Part { from, count } = part;
    let records = view.count();
    if records < from {
        panic!(rt; "{records} records, and not {from}");
    }
    if records - from < count {
        panic!(rt; "{records} records, and not {count} from {from} on");
    }
}

/// Asserts that as many of the records of a view as wanted come into one block, from one of them on.
fn fits_as(rt: &impl Abort, migrator: &Migrator<'_>, view: &BlockView<'_, '_>, from: u32, want: Fit)
    requires view { view.now.codec.now ≡ migrator.now.codec.now }
{
    has_records(rt, migrator, view, Part { from, count: 1 });
    let got = migrator.fit(view, from);
    assert_eq!(rt; got, want, "from record {from} on");
}

/// Asserts that the block of some records of a view has these octets, by both calls that lay it.
fn becomes(
    rt: &impl Abort,
    migrator: &Migrator<'_>,
    view: &BlockView<'_, '_>,
    part: Part,
    made: &[u8],
)
    requires view { view.now.codec.now ≡ migrator.now.codec.now }
{
    has_records(rt, migrator, view, part);
    let Part { from, count } = part;
    if count == 0 {
        panic!(rt; "no records");
    }
    let mut output = [0; 131_067];
    let octets = migrator.lay_range(view, from, count, &mut output);
    if octets > LONGEST {
        panic!(rt; "{octets} octets");
    }
    let octets = octets as usize;
    same(rt, &output[..octets], made, "a range that is laid");
    let mut buffer = [0; 65_535];
    let mut out = Out::over(&mut buffer);
    migrator.migrate_range(view, from, count, &mut out);
    same(rt, &buffer[..octets], made, "a range that is migrated");
}

/// A block, the number of one of its records, and what is asked from it on.
#[derive(Clone, Copy)]
struct Question {
    block: Shape,
    from: u32,
    asked: Asked,
}

/// Asserts what the view of the block of a question answers.
fn view_answers(
    rt: &impl Abort,
    alloc: Global,
    migrator: &Migrator<'_>,
    view: &BlockView<'_, '_>,
    question: Question,
)
    requires view { view.now.codec.now ≡ migrator.now.codec.now }
{
    let from = question.from;
    match question.asked {
        Asked::Fit(count, octets) => fits_as(rt, migrator, view, from, Fit { count, octets }),
        Asked::Block(count, made) => {
            let octets = octets_of(rt, alloc, made);
            becomes(rt, migrator, view, Part { from, count }, &octets);
        }
    }
}

/// Asserts what a block answers.
fn block_answers(rt: &impl Abort, alloc: Global, migrator: &Migrator<'_>, question: Question) {
    let octets = block_of(rt, alloc, question.block);
    let raw = raw_of(rt, &octets, question.block.front);
    let view = scan(migrator.old(), raw.body).expect(rt, "records");
    view_answers(rt, alloc, migrator, &view, question);
}

/// Asserts that of a block of the old edition in the new one, by their relation.
fn editions_answer(
    rt: &impl Abort,
    alloc: Global,
    editions: &Editions,
    relation: &Relation,
    question: Question,
)
    requires { Relates editions.now.old editions.now.new relation.now }
{
    let Editions { old, new } = editions;
    let codec = compile(alloc, old).expect(rt, "memory");
    let migrator = Migrator::new(alloc, old.spec(), new.spec(), relation, &codec);
    let migrator = migrator.expect(rt, "memory");
    block_answers(rt, alloc, &migrator, question);
}

fn answers(
    rt: &impl Abort,
    alloc: Global,
    &(old, new, block, from, asked): &(Edition, Edition, Shape, u32, Asked),
) {
    let editions = both(rt, alloc, old, new);
    let relation = relate(alloc, &editions.old, &editions.new);
    let relation = relation.expect(rt, "editions of one category");
    let question = Question { block, from, asked };
    editions_answer(rt, alloc, &editions, &relation, question);
}

#[test]
fn some_records_of_a_view(rt: HostRuntime) {
    for row in &ROWS {
        answers(&rt, rt.alloc(), row);
    }
}
