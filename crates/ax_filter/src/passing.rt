//! Whether a test holds of a record. Nothing here takes memory.
ghost use Rattle.std.specs.Prelude.{◌≡◌, map, option_and_then, IfSome};
ghost use Rattle.ax_format.specs.At.{is_present};
ghost use Rattle.ax_expressions.specs.Meaning.{compares, some_passes};
ghost use Rattle.ax_expressions.specs.Tests.{test_tree, tests_of, number_for, passes, all_pass, any_passes};
ghost use Rattle.ax_filter.specs.Spotted.{IsSpotOf};
ghost use Rattle.ax_walk.specs.FixedSpots.{IsFixedSpot};
ghost use Rattle.ax_walk.specs.Shown.{record_entries};

use crate::places::HasPlaces;
use ax_expressions::{Element, Op, Test, Tests, compares_as};
use ax_format::Place;
use ax_walk::{FixedSpot, RecordView};

#[inline]
fn stands<R: HasPlaces>(place: &Option<Place>, one: &R) -> bool
    requires { R.sound one.now }
    ensures { result ≡ some_passes (is_present (R.entries one.now)) place.now }
{
    match place {
        Some(place) => one.has(place),
        None => false,
    }
}

/// Whether the element's number compares so with the other one. It doesn't where it is absent.
#[inline(always)]
fn measures<R: HasPlaces>(element: &Option<Element>, op: Op, other: i128, one: &R) -> bool
    requires { R.sound one.now }
    ensures { result ≡ some_passes (λ n. compares op n other) (option_and_then (number_for (R.entries one.now)) element.now) }
{
    let Some(element) = element else {
        return false;
    };
    match one.number_at(&element.place) {
        Some(number) => compares_as(op, number, element.signed, element.width, other),
        None => false,
    }
}

/// The same in a record, where it is known where the element's number stands in its item.
#[inline(always)]
fn measures_by(
    element: &Option<Element>,
    op: Op,
    other: i128,
    one: &RecordView<'_, '_>,
    spot: FixedSpot,
) -> bool
    requires { IfSome element.now (λ e. IsFixedSpot one.now.codec.now e.place spot) }
    ensures { result ≡ some_passes (λ n. compares op n other) (option_and_then (number_for (record_entries one.now)) element.now) }
{
    let Some(element) = element else {
        return false;
    };
    match one.number_by(&element.place, spot) {
        Some(number) => compares_as(op, number, element.signed, element.width, other),
        None => false,
    }
}

/// The same as `passes`, where it is known where the number stands that the test compares, if it does: there is no call then.
#[inline(always)]
#[tactic(auto, using(ax_expressions::proofs::Trees::passing))]
pub fn passes_by(test: &Test, category: u8, one: &RecordView<'_, '_>, spot: FixedSpot) -> bool
    requires { IsSpotOf (test_tree test.now) one.now.codec.now spot }
    ensures { result ≡ passes category (record_entries one.now) (test_tree test.now) }
{
    match test {
        Test::Is {
            category: own,
            element,
            op,
            number,
        } => *own == category && measures_by(element, *op, *number, one, spot),
        _ => passes(test, category, one),
    }
}

/// Whether each of the tests holds.
#[cycle(pass)]
#[tactic(auto, using(crate::proofs::TestLists::alls))]
fn all_pass<R: HasPlaces>(tests: &Tests, category: u8, one: &R) -> bool
    requires { R.sound one.now }
    ensures { result ≡ all_pass category (R.entries one.now) (tests_of (map test_tree tests.now)) }
{
    for test in tests.as_slice() {
        if !passes(test, category, one) {
            return false;
        }
    }
    true
}

/// Whether some of the tests holds.
#[cycle(pass)]
#[tactic(auto, using(crate::proofs::TestLists::anys))]
fn any_passes<R: HasPlaces>(tests: &Tests, category: u8, one: &R) -> bool
    requires { R.sound one.now }
    ensures { result ≡ any_passes category (R.entries one.now) (tests_of (map test_tree tests.now)) }
{
    for test in tests.as_slice() {
        if passes(test, category, one) {
            return true;
        }
    }
    false
}

/// Whether the test holds of a record of that category.
#[cycle(pass)]
#[tactic(auto, using(ax_expressions::proofs::Trees::passing))]
pub fn passes<R: HasPlaces>(test: &Test, category: u8, one: &R) -> bool
    requires { R.sound one.now }
    ensures { result ≡ passes category (R.entries one.now) (test_tree test.now) }
{
    match test {
        Test::All(tests) => all_pass(tests, category, one),
        Test::Any(tests) => any_passes(tests, category, one),
        Test::Not(inner) => !passes(inner, category, one),
        Test::Present {
            category: own,
            place,
        } => *own == category && stands(place, one),
        Test::Is {
            category: own,
            element,
            op,
            number,
        } => *own == category && measures(element, *op, *number, one),
    }
}
