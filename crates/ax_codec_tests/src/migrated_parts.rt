//! Extended items of one edition in another, part by part.

use crate::edition_fixtures::Editions;
use crate::fixtures;
use crate::migrated_blocks::{Moved, migrates_as};
use ax_check::Accepted;
use std::alloc::Global;
use std::process::Abort;

const A: &str = "extended { part { A element 7 raw } }";

const AB: &str = "extended { part { A element 7 raw } part { B element 7 raw } }";

const ABC: &str =
    "extended { part { A element 7 raw } part { B element 7 raw } part { C element 7 raw } }";

const ABD: &str =
    "extended { part { A element 7 raw } part { B element 7 raw } part { D element 7 raw } }";

const ADC: &str =
    "extended { part { A element 7 raw } part { D element 7 raw } part { C element 7 raw } }";

const Z: &str = "extended { part { Z element 7 raw } }";

const CLOSED: &str = "closed { part { A element 7 raw } part { B element 8 raw } }";

const CLOSED_THREE: &str =
    "closed { part { A element 7 raw } part { B element 7 raw } part { C element 8 raw } }";

const CLOSED_ONE: &str = "closed { part { A element 8 raw } }";

const LONG_FIRST: &str = "extended { part { A element 15 raw } part { B element 7 raw } }";

const LONG_ALONE: &str = "extended { part { A element 15 raw } }";

const ONE: &str = "extended { part { A element 7 table { 1 \"one\" } } part { B element 7 raw } }";

const TWO: &str = "extended { part { A element 7 table { 2 \"two\" } } part { B element 7 raw } }";

const FOUR_THREE: &str = "extended { part { A element 4 raw B element 3 raw } }";

const THREE_FOUR: &str = "extended { part { A element 3 raw B element 4 raw } }";

const THREE_FIRST: &str = "extended { part { B element 3 raw A element 4 raw } }";

const SUBITEM: &str =
    "compound { S extended { part { A element 7 raw } part { B element 7 raw } } T element 8 raw }";

const SUBITEM_CUT: &str = "compound { S extended { part { A element 7 raw } } T element 8 raw }";

const SUBITEM_MOVED: &str =
    "compound { T element 8 raw - S extended { part { A element 7 raw } } }";

const SUBITEM_OTHER: &str = "compound { S extended { part { Z element 7 raw } } T element 8 raw }";

const COUNTED_AB: &str =
    "counted { extended { part { A element 7 raw } part { B element 7 raw } } }";

const COUNTED_A: &str = "counted { extended { part { A element 7 raw } } }";

// The old kind of item 010, the new one, a block of the old edition; the octets of the block in the new one, and the lines of
// its losses. Item 010 stands in slot 2, between items 020 and 030, of an octet each.
pub(crate) static PARTS: [(&str, &str, &str, &str, &str); 31] = [
    // Fewer parts are present than both editions have in common, as many, and one more.
    (ABC, ABD, "CF 00 05 40 02", "CF 00 05 40 02", ""),
    (ABC, ABD, "CF 00 06 40 03 04", "CF 00 06 40 03 04", ""),
    (
        ABC,
        ABD,
        "CF 00 07 40 03 05 06",
        "CF 00 06 40 03 04",
        "lost block 7 record 0 207/010/part2\n",
    ),
    // The same part again behind another one.
    (
        ABC,
        ADC,
        "CF 00 07 40 03 05 06",
        "CF 00 05 40 02",
        "lost block 7 record 0 207/010/part1\nlost block 7 record 0 207/010/part2\n",
    ),
    // A new edition with more parts.
    (A, AB, "CF 00 05 40 02", "CF 00 05 40 02", ""),
    (AB, ABC, "CF 00 06 40 03 04", "CF 00 06 40 03 04", ""),
    // Tables' entries don't matter; a name, a width and the order of members do.
    (ONE, TWO, "CF 00 06 40 03 04", "CF 00 06 40 03 04", ""),
    (
        A,
        Z,
        "CF 00 05 40 02",
        "CF 00 04 00",
        "lost block 7 record 0 207/010\nlost block 7 record 0 207/010/part0\n",
    ),
    (
        FOUR_THREE,
        THREE_FOUR,
        "CF 00 05 40 02",
        "CF 00 04 00",
        "lost block 7 record 0 207/010\nlost block 7 record 0 207/010/part0\n",
    ),
    (
        FOUR_THREE,
        THREE_FIRST,
        "CF 00 05 40 02",
        "CF 00 04 00",
        "lost block 7 record 0 207/010\nlost block 7 record 0 207/010/part0\n",
    ),
    // Other kinds of the same octets.
    (
        AB,
        "element 16 raw",
        "CF 00 06 40 03 04",
        "CF 00 04 00",
        "lost block 7 record 0 207/010\nlost block 7 record 0 207/010/part0\nlost block 7 record 0 207/010/part1\n",
    ),
    (
        A,
        "byfx element 7 raw",
        "CF 00 05 40 02",
        "CF 00 04 00",
        "lost block 7 record 0 207/010\nlost block 7 record 0 207/010/part0\n",
    ),
    (
        "byfx element 7 raw",
        A,
        "CF 00 05 40 02",
        "CF 00 04 00",
        "lost block 7 record 0 207/010\n",
    ),
    // The items before and behind stay, where some parts are lost and where all are.
    (
        AB,
        A,
        "CF 00 08 E0 11 03 04 23",
        "CF 00 07 E0 11 02 23",
        "lost block 7 record 0 207/010/part1\n",
    ),
    (
        AB,
        Z,
        "CF 00 08 E0 11 03 04 23",
        "CF 00 06 A0 11 23",
        "lost block 7 record 0 207/010\nlost block 7 record 0 207/010/part0\nlost block 7 record 0 207/010/part1\n",
    ),
    // Each record by its own parts.
    (
        AB,
        A,
        "CF 00 0B 40 03 04 40 02 40 05 06",
        "CF 00 09 40 02 40 02 40 04",
        "lost block 7 record 0 207/010/part1\nlost block 7 record 2 207/010/part1\n",
    ),
    // The FX bit of a part of two octets is in the second one.
    (
        LONG_FIRST,
        LONG_ALONE,
        "CF 00 07 40 01 03 04",
        "CF 00 06 40 01 02",
        "lost block 7 record 0 207/010/part1\n",
    ),
    // A subitem, in the same slot and in another one, and one that is lost.
    (
        SUBITEM,
        SUBITEM_CUT,
        "CF 00 08 40 C0 03 04 55",
        "CF 00 07 40 C0 02 55",
        "lost block 7 record 0 207/010/S/part1\n",
    ),
    (
        SUBITEM,
        SUBITEM_MOVED,
        "CF 00 08 40 C0 03 04 55",
        "CF 00 07 40 A0 55 02",
        "lost block 7 record 0 207/010/S/part1\n",
    ),
    (
        SUBITEM,
        SUBITEM_MOVED,
        "CF 00 07 40 C0 04 55",
        "CF 00 07 40 A0 55 04",
        "",
    ),
    (
        SUBITEM,
        SUBITEM_OTHER,
        "CF 00 08 40 C0 03 04 55",
        "CF 00 06 40 40 55",
        "lost block 7 record 0 207/010/S\nlost block 7 record 0 207/010/S/part0\nlost block 7 record 0 207/010/S/part1\n",
    ),
    // Inside a counted item there is no part of its own.
    (
        COUNTED_AB,
        COUNTED_A,
        "CF 00 07 40 01 03 04",
        "CF 00 04 00",
        "lost block 7 record 0 207/010\n",
    ),
    (
        COUNTED_AB,
        COUNTED_AB,
        "CF 00 07 40 01 03 04",
        "CF 00 07 40 01 03 04",
        "",
    ),
    // A closed item and an extended one; the last part of the closed one has no FX bit, and its last bit is kept as it is.
    (
        CLOSED,
        ABC,
        "CF 00 06 40 0B FF",
        "CF 00 05 40 0A",
        "lost block 7 record 0 207/010/part1\n",
    ),
    (CLOSED, ABC, "CF 00 05 40 0A", "CF 00 05 40 0A", ""),
    (CLOSED, CLOSED, "CF 00 06 40 0B FF", "CF 00 06 40 0B FF", ""),
    (
        CLOSED_THREE,
        AB,
        "CF 00 07 40 03 05 FF",
        "CF 00 06 40 03 04",
        "lost block 7 record 0 207/010/part2\n",
    ),
    (
        CLOSED_THREE,
        AB,
        "CF 00 06 40 03 04",
        "CF 00 06 40 03 04",
        "",
    ),
    (
        AB,
        CLOSED,
        "CF 00 06 40 03 04",
        "CF 00 05 40 02",
        "lost block 7 record 0 207/010/part1\n",
    ),
    (
        CLOSED_ONE,
        CLOSED_ONE,
        "CF 00 05 40 FF",
        "CF 00 05 40 FF",
        "",
    ),
    (
        CLOSED_ONE,
        A,
        "CF 00 05 40 FE",
        "CF 00 04 00",
        "lost block 7 record 0 207/010\nlost block 7 record 0 207/010/part0\n",
    ),
];

/// The edition with item 010 of that kind.
fn edition_of(rt: &impl Abort, alloc: Global, kind: &str) -> Accepted {
    let file = format!(in alloc;
        "category 207 edition \"X\" items {{ item 010 \"\" {kind} item 020 \"\" element 8 raw item 030 \"\" element 8 raw }} uap {{ 020 010 030 }}"
    );
    fixtures::accepted(rt, alloc, file.expect(rt, "memory").as_str())
}

/// The editions with item 010 of those kinds.
pub(crate) fn editions_of(rt: &impl Abort, alloc: Global, old: &str, new: &str) -> Editions {
    Editions {
        old: edition_of(rt, alloc, old),
        new: edition_of(rt, alloc, new),
    }
}

fn migrates(
    rt: &impl Abort,
    alloc: Global,
    &(old, new, input, made, lines): &(&str, &str, &str, &str, &str),
) {
    let editions = editions_of(rt, alloc, old, new);
    let want = Moved { input, made, lines };
    migrates_as(rt, alloc, &editions, want);
}

#[test]
fn parts_pass_or_are_lost(rt: HostRuntime) {
    for row in &PARTS {
        migrates(&rt, rt.alloc(), row);
    }
}
