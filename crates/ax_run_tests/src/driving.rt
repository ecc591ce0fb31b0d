//! The block loop of jobs that take no memory, by itself.
ghost use Rattle.ax_app.specs.Working.{IsSoundJob};
ghost use Rattle.ax_relation.specs.Relates.{Relates};

use crate::repeated::{largest, moved};
use crate::specs::accepted;
use crate::world::{bytes, failing, text_of};
use ax_app::{DriveEnd, Job, Work, drive};
use ax_check::{Accepted, Catalogue};
use ax_edition::{Relation, relate};
use ax_migrate_views::Migrator;
use ax_outside::{EndlessSource, MemSink, MemSource, Source};
use ax_tables::{Codecs, compile};
use std::alloc::Global;
use std::process::Abort;

/// The specification in the file of that name, accepted.
fn file_of(rt: &impl Abort, alloc: Global, name: &str) -> Accepted {
    accepted(rt, alloc, text_of(rt, name))
}

/// The sinks of a loop, in memory: the output, and the report, of which that call fails.
struct Sinks {
    out: MemSink,
    report: MemSink,
}

impl Drop for Sinks {
    fn drop(self) {
        let Sinks {
            out: _out,
            report: _report,
        } = self;
    }
}

/// Sinks with room for that many octets on the report.
fn sinks_of(rt: &impl Abort, alloc: Global, room: u32, call: Option<u64>) -> Sinks {
    let out = MemSink::new(alloc, ROOM, ROOM, Vec::new(alloc)).expect(rt, "memory");
    let failing = failing(rt, alloc, call);
    let report = MemSink::new(alloc, room, room, failing).expect(rt, "memory");
    Sinks { out, report }
}

/// The room of an output, and the most octets of an input.
const ROOM: u32 = 100_000;

/// How the loop ends that does this job.
fn ended<S: Source>(
    rt: &impl Abort,
    alloc: Global,
    job: Job<'_, '_>,
    source: &mut S,
    sinks: &mut Sinks,
) -> DriveEnd
    requires { IsSoundJob job }
{
    let mut work = Work::new(alloc, job, ROOM as u64).expect(rt, "memory");
    drive(&mut work, source, &mut sinks.out, &mut sinks.report)
}

/// Asserts how a loop ended, and what stands on its sinks then.
fn stands(rt: &impl Abort, sinks: &Sinks, end: DriveEnd, want: (DriveEnd, &[u8], &[u8])) {
    let got = (end, sinks.out.written(), sinks.report.written());
    assert_eq!(rt; got, want);
}

// Each block is 30 30 30 .., an opaque one of 12,336 octets: eight are within 100,000 octets.
fn endless_is_too_long(rt: &impl Abort, alloc: Global, job: Job<'_, '_>)
    requires { IsSoundJob job }
{
    let mut sinks = sinks_of(rt, alloc, 1, None);
    let end = ended(rt, alloc, job, &mut EndlessSource::new(0x30), &mut sinks);
    let wanted: &[u8] = &[0x30; 98_688];
    stands(rt, &sinks, end, (DriveEnd::InputTooLong, wanted, b""));
}

#[test]
fn an_input_without_end_is_too_long(rt: HostRuntime) {
    let alloc = rt.alloc();
    let mut catalogue = Catalogue::new(alloc);
    let one = file_of(&rt, alloc, "A");
    catalogue.add(one).expect(&rt, "a category");
    let codecs = Codecs::compile(alloc, &catalogue).expect(&rt, "memory");
    endless_is_too_long(&rt, alloc, Job::Canon(&catalogue, &codecs));
}

// The call of the report that fails, and how the loop ends, what it wrote, and what it told. Each of the two blocks loses the
// second part of item 020, and a block whose line isn't written isn't written either.
type Row = (u64, DriveEnd, &'static str, &'static str);

static REPORTS: [Row; 3] = [
    (0, DriveEnd::ReportFault, "", ""),
    (
        1,
        DriveEnd::ReportFault,
        "30 00 07 A0 19 0C A0",
        "lost block 0 record 0 048/020/part1\n",
    ),
    (
        2,
        DriveEnd::Done { blocks: 2 },
        "30 00 07 A0 19 0C A0 30 00 07 A0 19 0C A0",
        "lost block 0 record 0 048/020/part1\nlost block 1 record 0 048/020/part1\n",
    ),
];

const LOSING: &str = "30 00 08 A0 19 0C A1 00 30 00 08 A0 19 0C A1 00";

/// How the migration of the two blocks ends.
fn migrated(
    rt: &impl Abort,
    alloc: Global,
    migrator: &Migrator<'_>,
    sinks: &mut Sinks,
) -> DriveEnd {
    let input = bytes(rt, alloc, LOSING);
    let mut source = MemSource::new(input, Vec::new(alloc), Vec::new(alloc));
    ended(rt, alloc, Job::Migrate(migrator), &mut source, sinks)
}

/// Migrates the two blocks, and asserts what that row says.
fn ends_as(rt: &impl Abort, alloc: Global, migrator: &Migrator<'_>, row: &Row) {
    let (call, end, written, told) = *row;
    let mut sinks = sinks_of(rt, alloc, 1_000, Some(call));
    let got = migrated(rt, alloc, migrator, &mut sinks);
    let written = bytes(rt, alloc, written);
    stands(rt, &sinks, got, (end, &written, told.as_bytes()));
}

/// Migrates by a relation of two editions, with each call of the report failing in turn.
fn each_ends_as(rt: &impl Abort, alloc: Global, old: &Accepted, new: &Accepted, relation: &Relation)
    requires { Relates old.now new.now relation.now }
{
    let codec = compile(alloc, old).expect(rt, "memory");
    let migrator = Migrator::new(alloc, old.spec(), new.spec(), relation, &codec);
    let migrator = migrator.expect(rt, "memory");
    for row in &REPORTS {
        ends_as(rt, alloc, &migrator, row);
    }
}

fn related_end_as(rt: &impl Abort, alloc: Global, old: &Accepted, new: &Accepted) {
    let relation = relate(alloc, old, new).expect(rt, "editions of one category");
    each_ends_as(rt, alloc, old, new, &relation);
}

#[test]
fn a_report_that_fails_ends_a_migration(rt: HostRuntime) {
    let alloc = rt.alloc();
    let old = file_of(&rt, alloc, "048");
    let new = file_of(&rt, alloc, "048-P2");
    related_end_as(&rt, alloc, &old, &new);
}

// The most octets that the first reads give, in turn; the later ones give what is asked.
static READS: [[u32; 4]; 5] = [
    [70_000, 70_000, 70_000, 70_000],
    [1, 1, 1, 1],
    [3, 65_529, 1, 1],
    [65_533, 1, 70_000, 70_000],
    [65_534, 70_000, 70_000, 70_000],
];

/// Migrates the largest block of G1 where the reads are cut so, and asserts that both of its blocks are written.
fn both_are_written(
    rt: &impl Abort,
    alloc: Global,
    migrator: &Migrator<'_>,
    cuts: &[u32],
    both: &[u8],
) {
    let input = largest(rt, alloc, &[]);
    let cuts = cuts.to_vec(alloc).expect(rt, "memory");
    let mut source = MemSource::new(input, cuts, Vec::new(alloc));
    let mut sinks = sinks_of(rt, alloc, 1, None);
    let end = ended(rt, alloc, Job::Migrate(migrator), &mut source, &mut sinks);
    stands(rt, &sinks, end, (DriveEnd::Done { blocks: 1 }, both, b""));
}

/// Migrates it by a relation of two editions, with the reads cut in each way.
fn each_writes_both(
    rt: &impl Abort,
    alloc: Global,
    old: &Accepted,
    new: &Accepted,
    relation: &Relation,
)
    requires { Relates old.now new.now relation.now }
{
    let codec = compile(alloc, old).expect(rt, "memory");
    let migrator = Migrator::new(alloc, old.spec(), new.spec(), relation, &codec);
    let migrator = migrator.expect(rt, "memory");
    let second = moved(rt, alloc, [0x80, 0x01], 10_922, &[]);
    let both = moved(rt, alloc, [0xFF, 0xFF], 21_844, second.as_slice());
    for cuts in &READS {
        both_are_written(rt, alloc, &migrator, cuts, both.as_slice());
    }
}

// The loop has no allocator, and no ending of memory: a block is split without any.
#[test]
fn a_block_is_split_without_memory(rt: HostRuntime) {
    let alloc = rt.alloc();
    let old = file_of(&rt, alloc, "G1");
    let new = file_of(&rt, alloc, "G2");
    let relation = relate(alloc, &old, &new).expect(&rt, "editions of one category");
    each_writes_both(&rt, alloc, &old, &new, &relation);
}
