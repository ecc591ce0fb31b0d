//! Rows of numbers under other scales.
ghost use Rattle.std.specs.Prelude.{◌≡◌, ◌<◌, ◌≤◌};

use ax_model::Sign::{Signed, Unsigned};
use ax_model::{Scale, Sign, Text};
use ax_rescale::convert_number;
use std::alloc::Global;
use std::process::Abort;

/// The greatest numerator and denominator, and the greatest number of 64 bits.
const MOST: u64 = u64::MAX;

const ALL_ONES: u128 = 18_446_744_073_709_551_615;

/// A number's sign and its bits, and the numerator and the denominator of what one step of it stands for.
type Element = (Sign, u32, u64, u64);

/// A number of the old element, and what it is under the new one.
type Row = (u128, Element, Element, Option<u128>);

static SIGNED: [Row; 19] = [
    (
        65_535,
        (Signed, 16, 1, 4),
        (Signed, 32, 1, 8),
        Some(4_294_967_294),
    ),
    (65_535, (Signed, 16, 1, 4), (Unsigned, 16, 1, 4), None),
    (
        32_767,
        (Signed, 16, 1, 4),
        (Unsigned, 16, 1, 4),
        Some(32_767),
    ),
    (
        32_768,
        (Signed, 16, 1, 4),
        (Signed, 32, 1, 4),
        Some(4_294_934_528),
    ),
    (0x80, (Signed, 8, 1, 1), (Signed, 8, 1, 2), None),
    (0x80, (Signed, 8, 1, 1), (Signed, 9, 1, 2), Some(256)),
    (0x81, (Signed, 8, 1, 1), (Signed, 9, 1, 2), Some(258)),
    (0xBF, (Signed, 8, 1, 1), (Signed, 8, 1, 2), None),
    (0xC0, (Signed, 8, 1, 1), (Signed, 8, 1, 2), Some(128)),
    (63, (Signed, 8, 1, 1), (Signed, 8, 1, 2), Some(126)),
    (64, (Signed, 8, 1, 1), (Signed, 8, 1, 2), None),
    (255, (Unsigned, 8, 1, 1), (Signed, 8, 1, 1), None),
    (128, (Unsigned, 8, 1, 1), (Signed, 8, 1, 1), None),
    (127, (Unsigned, 8, 1, 1), (Signed, 8, 1, 1), Some(127)),
    (0xFD, (Signed, 8, 1, 2), (Signed, 8, 1, 3), None),
    (0xFE, (Signed, 8, 1, 2), (Signed, 8, 1, 3), Some(0xFD)),
    (1, (Signed, 1, 1, 1), (Signed, 1, 1, 1), Some(1)),
    (1, (Signed, 1, 1, 1), (Signed, 64, 1, 1), Some(ALL_ONES)),
    (1, (Signed, 1, 1, 1), (Unsigned, 64, 1, 1), None),
];

static UNSIGNED: [Row; 12] = [
    (
        256,
        (Unsigned, 16, 1, 128),
        (Unsigned, 24, 1, 256),
        Some(512),
    ),
    (256, (Unsigned, 16, 1, 128), (Unsigned, 8, 1, 64), Some(128)),
    (257, (Unsigned, 16, 1, 128), (Unsigned, 8, 1, 64), None),
    (510, (Unsigned, 16, 1, 128), (Unsigned, 8, 1, 64), Some(255)),
    (512, (Unsigned, 16, 1, 128), (Unsigned, 8, 1, 64), None),
    (127, (Unsigned, 8, 1, 1), (Unsigned, 8, 1, 2), Some(254)),
    (128, (Unsigned, 8, 1, 1), (Unsigned, 8, 1, 2), None),
    (255, (Unsigned, 8, 1, 1), (Unsigned, 8, 1, 1), Some(255)),
    (256, (Unsigned, 9, 1, 1), (Unsigned, 8, 1, 1), None),
    (3, (Unsigned, 8, 1, 2), (Unsigned, 8, 1, 3), None),
    (2, (Unsigned, 8, 1, 2), (Unsigned, 8, 1, 3), Some(3)),
    (7, (Unsigned, 8, 1, 4), (Unsigned, 8, 2, 8), Some(7)),
];

static ZEROS: [Row; 5] = [
    (0, (Signed, 16, 1, 4), (Unsigned, 8, 3, 7), Some(0)),
    (0, (Unsigned, 16, 5, 4), (Signed, 8, 3, 7), Some(0)),
    (0, (Signed, 1, 1, 1), (Unsigned, 1, 1, 1), Some(0)),
    (0, (Unsigned, 64, MOST, 1), (Signed, 1, 1, MOST), Some(0)),
    (0, (Signed, 64, 1, MOST), (Unsigned, 1, MOST, 1), Some(0)),
];

static GREATEST: [Row; 13] = [
    (
        ALL_ONES,
        (Unsigned, 64, MOST, 1),
        (Unsigned, 64, 1, MOST),
        None,
    ),
    (1, (Unsigned, 64, MOST, 1), (Unsigned, 64, 1, MOST), None),
    (
        ALL_ONES,
        (Unsigned, 64, 1, MOST),
        (Unsigned, 64, MOST, 1),
        None,
    ),
    (
        ALL_ONES,
        (Unsigned, 64, 1, MOST),
        (Unsigned, 64, 1, 1),
        Some(1),
    ),
    (
        ALL_ONES - 1,
        (Unsigned, 64, 1, MOST),
        (Unsigned, 64, 1, 1),
        None,
    ),
    (
        1,
        (Unsigned, 64, MOST, 1),
        (Unsigned, 64, 1, 1),
        Some(ALL_ONES),
    ),
    (
        1,
        (Unsigned, 1, MOST, MOST),
        (Unsigned, 1, MOST, MOST),
        Some(1),
    ),
    (
        ALL_ONES,
        (Unsigned, 64, MOST, MOST),
        (Unsigned, 64, MOST, MOST),
        Some(ALL_ONES),
    ),
    (
        ALL_ONES,
        (Unsigned, 64, MOST, MOST),
        (Unsigned, 64, 1, 1),
        Some(ALL_ONES),
    ),
    (
        ALL_ONES,
        (Signed, 64, MOST, MOST),
        (Signed, 64, MOST, MOST),
        Some(ALL_ONES),
    ),
    (
        ALL_ONES - 1,
        (Unsigned, 64, MOST, 1),
        (Unsigned, 64, MOST - 1, 1),
        Some(ALL_ONES),
    ),
    (
        ALL_ONES - 2,
        (Unsigned, 64, MOST, 1),
        (Unsigned, 64, MOST - 1, 1),
        None,
    ),
    (
        ALL_ONES,
        (Unsigned, 64, MOST, MOST - 1),
        (Unsigned, 64, MOST - 1, MOST),
        None,
    ),
];

/// The scale of an element. Asserts that it has 1 to 64 bits, and that the scale has no 0.
fn scale_of(rt: &impl Abort, alloc: Global, element: Element) -> Scale
    ensures width { (1 ≤ element.1) × (element.1 ≤ 64) }
    ensures scale { (0 < result.num) × (0 < result.den) }
{
    let (sign, width, num, den) = element;
    assert!(rt; 1 <= width && width <= 64);
    assert!(rt; 0 < num && 0 < den);
    let unit = Text::new(alloc);
    Scale {
        sign,
        num,
        den,
        unit,
    }
}

/// Asserts what each number is converted to.
fn rows_are(rt: &impl Abort, alloc: Global, rows: &[Row]) {
    for (value, old, new, want) in rows {
        let old_scale = scale_of(rt, alloc, *old);
        let new_scale = scale_of(rt, alloc, *new);
        assert!(rt; *value < 1 << old.1);
        let got = convert_number(*value, old.1, &old_scale, new.1, &new_scale);
        assert_eq!(rt; got, *want, "{value} of {} bits", old.1);
    }
}

#[test]
fn signed_numbers(rt: HostRuntime) {
    rows_are(&rt, rt.alloc(), &SIGNED);
}

#[test]
fn unsigned_numbers(rt: HostRuntime) {
    rows_are(&rt, rt.alloc(), &UNSIGNED);
}

#[test]
fn zero_under_any_scale(rt: HostRuntime) {
    rows_are(&rt, rt.alloc(), &ZEROS);
}

#[test]
fn greatest_scales(rt: HostRuntime) {
    rows_are(&rt, rt.alloc(), &GREATEST);
}
