//! A made-up block command, which reports a line for each block and refuses some for their length: what stands on both
//! outputs where a call of either fails.
ghost use Rattle.std.specs.Prelude.{◌≡◌};
ghost use Rattle.ax_endpoints.specs.Changes.{Wrote, sink_change};
ghost use Rattle.ax_run_tests.specs.Categories.{category_command, category_line};

use crate::world::{bytes, failing, left_of};
use ax_blocks::{BlockWork, StreamEnd, WorkStop, run_blocks, write_piece};
use ax_format::{RawBlock, category_digits};
use ax_outside::{MemSink, MemSource, Sink, SinkFailed, write_text};
use std::alloc::Global;
use std::process::Abort;

/// The octets that the result of a refused block would have.
const TOO_MANY: u32 = 70_000;

fn category_line(category: u8) -> [u8; 4]
    ensures { result ≡ category_line category }
{
    let [hundreds, tens, ones] = category_digits(category);
    [hundreds, tens, ones, b'\n']
}

fn write_category_line<R: Sink>(report: &mut R, category: u8) -> Result<(), SinkFailed>
    ensures { Wrote (sink_change R.Sink report.old report.new) result (category_line category) }
{
    write_text(report, &category_line(category))
}

/// The categories of blocks, and a mark for each.
#[derive(Drop)]
struct CategoryWork<'m> {
    mark: &'m [u8],
}

impl<'m> BlockWork for CategoryWork<'m> {
    ghost use Rattle.std.specs.Prelude.{false};

    ghost command = { λ s. category_command s.mark.now };

    ghost sound = { λ s. Unit {0} };

    ghost remembers = { λ first s raws. Unit {0} };

    ghost takes_memory = { false };

    #[tactic(auto, using(crate::proofs::CategoryBlocks::category_takes))]
    fn take<R: Sink, K: Sink>(
        &mut self,
        _number: u64,
        raw: &RawBlock<'_>,
        report: &mut R,
        out: &mut K,
    ) -> Result<(), WorkStop> {
        if raw.category == 255 {
            return Err(WorkStop::TooLong { octets: TOO_MANY });
        }
        match write_category_line(report, raw.category) {
            Ok(()) => write_piece(out, self.mark),
            Err(_) => Err(WorkStop::ReportFault),
        }
    }
}

// Two blocks of the categories 48 and 34, one of category 255, and one more.
const INPUT: &str = "30 00 04 00 22 00 04 00 FF 00 04 00 30 00 04 00";

// Which write of the output and of the report fails, if any, a call taking two octets; and how the run ends, what stands on both,
// and how many octets aren't read.
static ROWS: [(Option<u64>, Option<u64>, StreamEnd, &[u8], &[u8], usize); 10] = [
    (None, None, LONG, b"+++.+++.", b"048\n034\n", 4),
    (Some(0), None, StreamEnd::WriteFault, b"", b"048\n", 12),
    (Some(1), None, StreamEnd::WriteFault, b"++", b"048\n", 12),
    (
        Some(2),
        None,
        StreamEnd::WriteFault,
        b"+++.",
        b"048\n034\n",
        8,
    ),
    (
        Some(3),
        None,
        StreamEnd::WriteFault,
        b"+++.++",
        b"048\n034\n",
        8,
    ),
    (None, Some(0), StreamEnd::ReportFault, b"", b"", 12),
    (None, Some(1), StreamEnd::ReportFault, b"", b"04", 12),
    (None, Some(2), StreamEnd::ReportFault, b"+++.", b"048\n", 8),
    (
        None,
        Some(3),
        StreamEnd::ReportFault,
        b"+++.",
        b"048\n03",
        8,
    ),
    (Some(4), Some(4), LONG, b"+++.+++.", b"048\n034\n", 4),
];

const LONG: StreamEnd = StreamEnd::TooLong {
    block: 2,
    octets: TOO_MANY,
};

fn sink(rt: &impl Abort, alloc: Global, call: Option<u64>) -> MemSink {
    let failing = failing(rt, alloc, call);
    MemSink::new(alloc, 100, 2, failing).expect(rt, "memory")
}

/// The outside of a run.
#[derive(Drop)]
struct World {
    source: MemSource,
    out: MemSink,
    report: MemSink,
}

fn world_of(
    rt: &impl Abort,
    alloc: Global,
    out_fails: Option<u64>,
    report_fails: Option<u64>,
) -> World {
    let input = bytes(rt, alloc, INPUT);
    World {
        source: MemSource::new(input, Vec::new(alloc), Vec::new(alloc)),
        out: sink(rt, alloc, out_fails),
        report: sink(rt, alloc, report_fails),
    }
}

/// How the blocks of that world end.
fn ended(alloc: Global, world: &mut World) -> StreamEnd {
    let mut work = CategoryWork { mark: b"+++." };
    run_blocks(
        alloc,
        &mut work,
        &mut world.source,
        &mut world.out,
        &mut world.report,
    )
}

fn ends_as(
    rt: &impl Abort,
    alloc: Global,
    world: &mut World,
    want: (StreamEnd, &[u8], &[u8], usize),
) {
    let end = ended(alloc, world);
    let left = left_of(rt, alloc, &mut world.source);
    let got = (end, world.out.written(), world.report.written(), left);
    assert_eq!(rt; got, want);
}

#[test]
fn what_stands_where_a_line_or_a_piece_fails(rt: HostRuntime) {
    let alloc = rt.alloc();
    for &(out_fails, report_fails, end, written, reported, left) in &ROWS {
        let mut world = world_of(&rt, alloc, out_fails, report_fails);
        ends_as(&rt, alloc, &mut world, (end, written, reported, left));
    }
}
