//! The same blocks as views: their length, their octets and their losses, one after the other.
ghost use Rattle.std.specs.Prelude.{◌≡◌};
ghost use Rattle.ax_relation.specs.Relates.{Relates};

use crate::edition_fixtures::{Edition, Editions, both, report_of, same};
use crate::fixtures::{octets_of, raw_of};
use crate::migrated_blocks::{MIGRATED, Moved};
use crate::migrated_parts::{PARTS, editions_of};
use ax_bits::Out;
use ax_edition::{Relation, relate};
use ax_migrate::loss_line;
use ax_migrate_views::Migrator;
use ax_tables::compile;
use ax_view::{BlockView, scan};
use std::alloc::Global;
use std::process::Abort;

/// Octets of the longest data block.
const LONGEST: usize = 65_535;

/// Asserts that the losses of a view have these lines, as those of block 7.
fn loses(
    rt: &impl Abort,
    alloc: Global,
    migrator: &Migrator<'_>,
    view: &BlockView<'_, '_>,
    want: Moved<'_>,
)
    requires view { view.now.codec.now ≡ migrator.now.codec.now }
{
    let mut report = report_of(rt, alloc);
    for loss in migrator.losses(view) {
        loss_line(&mut report, 7, &loss).expect(rt, "a line that is written");
    }
    same(rt, report.written(), want.lines.as_bytes(), want.input);
}

/// Asserts that the migrated block of a view has these octets and as many.
fn becomes(
    rt: &impl Abort,
    migrator: &Migrator<'_>,
    view: &BlockView<'_, '_>,
    made: &[u8],
    of: &str,
)
    requires view { view.now.codec.now ≡ migrator.now.codec.now }
{
    let octets = migrator.length(view) as usize;
    assert!(rt; octets <= LONGEST);
    let mut buffer = [0; LONGEST];
    let mut out = Out::over(&mut buffer);
    migrator.migrate(view, &mut out);
    same(rt, &buffer[..octets], made, of);
}

/// Asserts both of the view of a block.
fn is_migrated(rt: &impl Abort, alloc: Global, migrator: &Migrator<'_>, want: Moved<'_>) {
    let octets = octets_of(rt, alloc, want.input);
    let raw = raw_of(rt, &octets, want.input);
    let view = scan(migrator.old(), raw.body).expect(rt, "records");
    let made = octets_of(rt, alloc, want.made);
    becomes(rt, migrator, &view, &made, want.input);
    loses(rt, alloc, migrator, &view, want);
}

/// Asserts that of the view of a block, of the old edition in the new one, by their relation.
fn is_migrated_by(
    rt: &impl Abort,
    alloc: Global,
    editions: &Editions,
    relation: &Relation,
    want: Moved<'_>,
)
    requires { Relates editions.now.old editions.now.new relation.now }
{
    let Editions { old, new } = editions;
    let codec = compile(alloc, old).expect(rt, "memory");
    let migrator = Migrator::new(alloc, old.spec(), new.spec(), relation, &codec);
    let migrator = migrator.expect(rt, "memory");
    is_migrated(rt, alloc, &migrator, want);
}

fn migrates_as(rt: &impl Abort, alloc: Global, editions: &Editions, want: Moved<'_>) {
    let Editions { old, new } = editions;
    let relation = relate(alloc, old, new).expect(rt, "editions of one category");
    is_migrated_by(rt, alloc, editions, &relation, want);
}

fn migrates(
    rt: &impl Abort,
    alloc: Global,
    &(old, new, input, made, lines): &(Edition, Edition, &str, &str, &str),
) {
    let editions = both(rt, alloc, old, new);
    let want = Moved { input, made, lines };
    migrates_as(rt, alloc, &editions, want);
}

#[test]
fn views_pass_or_are_lost(rt: HostRuntime) {
    for row in &MIGRATED {
        migrates(&rt, rt.alloc(), row);
    }
}

fn parts_migrate(
    rt: &impl Abort,
    alloc: Global,
    &(old, new, input, made, lines): &(&str, &str, &str, &str, &str),
) {
    let editions = editions_of(rt, alloc, old, new);
    let want = Moved { input, made, lines };
    migrates_as(rt, alloc, &editions, want);
}

#[test]
fn parts_of_views_pass_or_are_lost(rt: HostRuntime) {
    for row in &PARTS {
        parts_migrate(&rt, rt.alloc(), row);
    }
}
