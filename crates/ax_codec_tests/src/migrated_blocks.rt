//! Single blocks of one edition in another, as trees.

use crate::edition_fixtures::{Edition, Editions, both, decoded, have_lines, same};
use crate::fixtures::octets_of;
use ax_check::Accepted;
use ax_edition::relate;
use ax_migrate::{LossList, Migrated, migrate_tree};
use ax_model::{Block, fits};
use ax_values::encode_block;
use std::alloc::Global;
use std::process::Abort;

const FULL: &str = "CA 00 08 80 C0 11 22 33";

const DEEP: &str = "CC 00 0E C0 E0 C0 11 22 02 AA 80 33 01 44";

// The old edition, the new one, a block of the old one; the octets of the block in the new one, and the lines of its losses.
pub(crate) static MIGRATED: [(Edition, Edition, &str, &str, &str); 24] = [
    (
        Edition::P1,
        Edition::P2,
        "30 00 08 A0 19 0C A1 00",
        "30 00 07 A0 19 0C A0",
        "lost block 7 record 0 048/020/part1\n",
    ),
    (
        Edition::P1,
        Edition::P1,
        "30 00 08 A0 19 0C A1 00",
        "30 00 08 A0 19 0C A1 00",
        "",
    ),
    (
        Edition::H1,
        Edition::H2,
        FULL,
        "CA 00 07 80 80 22 33",
        "lost block 7 record 0 202/010/A\n",
    ),
    (
        Edition::H1,
        Edition::H3,
        FULL,
        "CA 00 04 00",
        "lost block 7 record 0 202/010\nlost block 7 record 0 202/010/A\nlost block 7 record 0 202/010/B\n",
    ),
    (Edition::H1, Edition::H1, FULL, FULL, ""),
    (
        Edition::H1,
        Edition::Metres,
        FULL,
        "CA 00 07 80 40 22 33",
        "lost block 7 record 0 202/010/A\n",
    ),
    (
        Edition::Metres,
        Edition::Quarters,
        FULL,
        "CA 00 07 80 40 22 33",
        "lost block 7 record 0 202/010/A\n",
    ),
    (Edition::Metres, Edition::Metres, FULL, FULL, ""),
    // A redundant presence octet is no part of a record.
    (
        Edition::P1,
        Edition::P2,
        "30 00 09 A1 00 19 0C A1 00",
        "30 00 07 A0 19 0C A0",
        "lost block 7 record 0 048/020/part1\n",
    ),
    // A compound stays where all of its subitems are lost, and where it has none.
    (
        Edition::H1,
        Edition::H2,
        "CA 00 06 80 80 11",
        "CA 00 05 80 00",
        "lost block 7 record 0 202/010/A\n",
    ),
    (
        Edition::H1,
        Edition::H3,
        "CA 00 05 80 00",
        "CA 00 04 00",
        "lost block 7 record 0 202/010\n",
    ),
    (
        Edition::H3,
        Edition::H1,
        "CA 00 05 80 11",
        "CA 00 04 00",
        "lost block 7 record 0 202/010\n",
    ),
    // Only what is there is lost, record by record; a record without an item stays.
    (
        Edition::H1,
        Edition::H2,
        "CA 00 0D 00 80 40 22 33 80 80 11 80 00",
        "CA 00 0C 00 80 80 22 33 80 00 80 00",
        "lost block 7 record 2 202/010/A\n",
    ),
    // Items change places, and one passes to the eighth slot.
    (
        Edition::Two,
        Edition::Swapped,
        "CB 00 09 C0 11 23 44 80 55",
        "CB 00 09 60 23 44 11 20 55",
        "",
    ),
    (
        Edition::Two,
        Edition::First,
        "CB 00 09 C0 11 23 44 40 02",
        "CB 00 07 01 80 11 00",
        "lost block 7 record 0 203/020\nlost block 7 record 0 203/020/part0\nlost block 7 record 0 203/020/part1\nlost block 7 record 1 203/020\nlost block 7 record 1 203/020/part0\n",
    ),
    (
        Edition::First,
        Edition::Two,
        "CB 00 06 01 80 11",
        "CB 00 05 80 11",
        "",
    ),
    // At depth: subitems change places, some are lost, and a list stays whole.
    (
        Edition::Deep,
        Edition::DeepChanged,
        DEEP,
        "CC 00 0D C0 01 44 B0 02 AA 40 33 80 22",
        "lost block 7 record 0 204/010/A/P\n",
    ),
    (
        Edition::Deep,
        Edition::DeepFlat,
        DEEP,
        "CC 00 07 80 40 02 AA",
        "lost block 7 record 0 204/010/A\nlost block 7 record 0 204/010/A/P\nlost block 7 record 0 204/010/A/Q\nlost block 7 record 0 204/010/C\nlost block 7 record 0 204/010/C/R\nlost block 7 record 0 204/020\n",
    ),
    (
        Edition::DeepChanged,
        Edition::Deep,
        "CC 00 0D C0 01 44 B0 02 AA 40 33 80 22",
        "CC 00 0D C0 E0 40 22 02 AA 80 33 01 44",
        "",
    ),
    (Edition::Deep, Edition::Deep, DEEP, DEEP, ""),
    // A wide item keeps both octets of its counter, and a closed one has no FX in its last part.
    (
        Edition::W,
        Edition::WSwapped,
        "CE 00 0A C0 00 02 AA BB 0B FF",
        "CE 00 0A C0 0B FF 00 02 AA BB",
        "",
    ),
    (
        Edition::W,
        Edition::WSwapped,
        "CE 00 07 80 00 01 AA",
        "CE 00 07 40 00 01 AA",
        "",
    ),
    // No part of an extended item is shared; all of them are.
    (
        Edition::V1,
        Edition::V2,
        "CF 00 06 80 03 04",
        "CF 00 04 00",
        "lost block 7 record 0 207/010\nlost block 7 record 0 207/010/part0\nlost block 7 record 0 207/010/part1\n",
    ),
    (
        Edition::V1,
        Edition::V1,
        "CF 00 06 80 03 04",
        "CF 00 06 80 03 04",
        "",
    ),
];

// A block of another category is opaque.
static OPAQUE: (Edition, Edition, &str, &str, &str) = (
    Edition::H1,
    Edition::H3,
    "3E 00 05 80 FF",
    "3E 00 05 80 FF",
    "",
);

/// A block of the old edition and its octets in the new one, in hexadecimal, and the lines of its losses as those of block 7.
#[derive(Clone, Copy)]
pub(crate) struct Moved<'m> {
    pub(crate) input: &'m str,
    pub(crate) made: &'m str,
    pub(crate) lines: &'m str,
}

/// The migrated block, and what it lost.
fn migrated(rt: &impl Abort, alloc: Global, editions: &Editions, input: &str) -> Migrated {
    let Editions { old, new } = editions;
    let relation = relate(alloc, old, new).expect(rt, "editions of one category");
    let block = decoded(rt, alloc, old.spec(), input);
    let moved = migrate_tree(alloc, &relation, old.spec(), new.spec(), &block);
    moved.expect(rt, "a block that is migrated")
}

/// The octets of a block that fits a specification.
fn encoded(rt: &impl Abort, alloc: Global, file: &Accepted, block: &Block) -> Vec<u8> {
    assert!(rt; fits(file.spec(), block));
    encode_block(alloc, file.spec(), block).expect(rt, "octets")
}

/// Asserts that the migrated block has these octets, and that its losses have these lines.
pub(crate) fn migrates_as(rt: &impl Abort, alloc: Global, editions: &Editions, want: Moved<'_>) {
    let got = migrated(rt, alloc, editions, want.input);
    let octets = encoded(rt, alloc, &editions.new, &got.block);
    same(rt, &octets, &octets_of(rt, alloc, want.made), want.input);
    have_lines(rt, alloc, &got.losses, want.lines, want.input);
}

fn migrates(
    rt: &impl Abort,
    alloc: Global,
    &(old, new, input, made, lines): &(Edition, Edition, &str, &str, &str),
) {
    let editions = both(rt, alloc, old, new);
    let want = Moved { input, made, lines };
    migrates_as(rt, alloc, &editions, want);
}

#[test]
fn entries_pass_or_are_lost(rt: HostRuntime) {
    for row in &MIGRATED {
        migrates(&rt, rt.alloc(), row);
    }
}

#[test]
fn a_block_of_another_category_passes(rt: HostRuntime) {
    migrates(&rt, rt.alloc(), &OPAQUE);
}
