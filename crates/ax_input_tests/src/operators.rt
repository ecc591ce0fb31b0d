//! Each comparison at a number that is equal, at one that is below and at one that is above.
use crate::filter_fixtures::{Case, catalogue, keeps};
use ax_check::Catalogue;
use ax_vectors::{CAT034_P1, CAT048_P1};
use std::alloc::Global;
use std::process::Abort;

/// The sign of a comparison, and whether a number compares so with one that it is equal to, with one that it is below and with
/// one that it is above.
#[derive(Clone, Copy)]
struct Operator {
    sign: &'static str,
    at_equal: bool,
    if_below: bool,
    if_above: bool,
}

/// An element, a block of one record in which it has a number, that number, one above it and one below it.
#[derive(Clone, Copy)]
struct Number {
    element: &'static str,
    block: &'static str,
    equal: &'static str,
    above: &'static str,
    below: &'static str,
}

static OPERATORS: [Operator; 6] = [
    Operator {
        sign: "=",
        at_equal: true,
        if_below: false,
        if_above: false,
    },
    Operator {
        sign: "!=",
        at_equal: false,
        if_below: true,
        if_above: true,
    },
    Operator {
        sign: "<",
        at_equal: false,
        if_below: true,
        if_above: false,
    },
    Operator {
        sign: "<=",
        at_equal: true,
        if_below: true,
        if_above: false,
    },
    Operator {
        sign: ">",
        at_equal: false,
        if_below: false,
        if_above: true,
    },
    Operator {
        sign: ">=",
        at_equal: true,
        if_below: false,
        if_above: true,
    },
];

// FL has fourteen bits and a sign.
static NUMBERS: [Number; 6] = [
    Number {
        element: "048/010/SAC",
        block: "30 00 06 80 19 0C",
        equal: "25",
        above: "26",
        below: "24",
    },
    Number {
        element: "048/010/SAC",
        block: "30 00 06 80 00 0C",
        equal: "0",
        above: "1",
        below: "-1",
    },
    Number {
        element: "048/010/SAC",
        block: "30 00 06 80 FF 0C",
        equal: "255",
        above: "256",
        below: "-1",
    },
    Number {
        element: "048/090/FL",
        block: "30 00 06 04 3F FF",
        equal: "-1",
        above: "0",
        below: "-2",
    },
    Number {
        element: "048/090/FL",
        block: "30 00 06 04 20 00",
        equal: "-8192",
        above: "-8191",
        below: "-8193",
    },
    Number {
        element: "048/090/FL",
        block: "30 00 06 04 1F FF",
        equal: "8191",
        above: "8192",
        below: "8190",
    },
];

/// A comparison with a number, and whether it holds.
#[derive(Clone, Copy)]
struct Comparison {
    sign: &'static str,
    number: &'static str,
    holds: bool,
}

// Asserts that the element of the block compares so with the number, or doesn't.
fn compares(rt: &impl Abort, alloc: Global, files: &Catalogue, of: &Number, by: Comparison) {
    let Number { element, block, .. } = *of;
    let Comparison {
        sign,
        number,
        holds,
    } = by;
    let text = format!(in alloc; "is {element} {sign} {number}").expect(rt, "memory");
    let text = text.as_str();
    let want = if holds { block } else { "" };
    keeps(rt, alloc, files, Case { text, block, want });
}

// Asserts that a number compares so with one that it is equal to, with one above it and with one below it.
fn compares_with_each(
    rt: &impl Abort,
    alloc: Global,
    files: &Catalogue,
    of: &Number,
    by: &Operator,
) {
    let sign = by.sign;
    for (number, holds) in [
        (of.equal, by.at_equal),
        (of.above, by.if_below),
        (of.below, by.if_above),
    ] {
        let by = Comparison {
            sign,
            number,
            holds,
        };
        compares(rt, alloc, files, of, by);
    }
}

fn compares_by_each(rt: &impl Abort, alloc: Global, files: &Catalogue, number: &Number) {
    for operator in &OPERATORS {
        compares_with_each(rt, alloc, files, number, operator);
    }
}

#[test]
fn each_comparison(rt: HostRuntime) {
    let files = catalogue(&rt, rt.alloc(), CAT034_P1, CAT048_P1);
    for number in &NUMBERS {
        compares_by_each(&rt, rt.alloc(), &files, number);
    }
}
