//! Editions of categories, blocks from octets, and lines of losses as octets.
ghost use Rattle.ax_model.specs.OfCode.{HasNoFlaw, BlockFits};

use crate::fixtures::{self, octets_of, raw_of};
use ax_check::Accepted;
use ax_migrate::{LossList, loss_line};
use ax_model::{Block, Spec, fits};
use ax_outside::MemSink;
use ax_values::decode_block;
use ax_vectors::{CAT048_P1, CAT048_P2, FILE_G1, FILE_G2, FILE_H1, FILE_H2, FILE_H3, FILE_W};
use std::alloc::Global;
use std::process::Abort;

/// More octets than the lines of any block here have.
const AMPLE: u32 = 10_000;

// H1 with another scale in subitem A, twice.
const FILE_METRES: &str =
    r#"category 202 edition "H1" items { item 010 "" compound { A element 8 quantity unsigned 1 2 "m" B element 16 raw } } uap { 010 }"#;

const FILE_QUARTERS: &str =
    r#"category 202 edition "H1" items { item 010 "" compound { A element 8 quantity unsigned 2 4 "m" B element 16 raw } } uap { 010 }"#;

// Two items; the same in another order after a spare slot; and the first alone, after seven spare slots.
const FILE_TWO: &str =
    r#"category 203 edition "1" items { item 010 "" element 8 raw item 020 "" extended { part { A element 7 raw } part { B element 7 raw } } } uap { 010 020 }"#;

const FILE_SWAPPED: &str =
    r#"category 203 edition "2" items { item 010 "another title" element 8 raw item 020 "" extended { part { A element 7 raw } part { B element 7 raw } } } uap { - 020 010 }"#;

const FILE_FIRST: &str =
    r#"category 203 edition "3" items { item 010 "" element 8 raw } uap { - - - - - - - 010 }"#;

// Compounds in compounds; the same where slots changed places and two subitems are gone; and where the inner one is an element.
const FILE_DEEP: &str =
    r#"category 204 edition "1" items { item 010 "" compound { A compound { P element 8 raw Q element 8 raw } B explicit C compound { R element 8 raw } } item 020 "" counted { element 8 raw } } uap { 010 020 }"#;

const FILE_DEEP_CHANGED: &str =
    r#"category 204 edition "2" items { item 010 "" compound { B explicit - C compound { S element 8 raw R element 8 raw } A compound { Q element 8 raw } } item 020 "" counted { element 8 raw } } uap { 020 010 }"#;

const FILE_DEEP_FLAT: &str =
    r#"category 204 edition "3" items { item 010 "" compound { A element 8 raw B explicit } item 020 "" counted { element 16 raw } } uap { 010 020 }"#;

// W with its items in the other order.
const FILE_W_SWAPPED: &str =
    r#"category 206 edition "X" items { item 010 "" wide { element 8 raw } item 020 "" closed { part { A element 7 raw } part { B element 8 raw } } } uap { 020 010 }"#;

// An extended item, and another whose first part has the same width but other members.
const FILE_V1: &str =
    r#"category 207 edition "V1" items { item 010 "" extended { part { A element 7 raw } part { B element 7 raw } } } uap { 010 }"#;

const FILE_V2: &str =
    r#"category 207 edition "V2" items { item 010 "" extended { part { A element 4 raw C element 3 raw } } } uap { 010 }"#;

// An item of occurrences, in the slots 1, 8 and 126.
const FILE_J1: &str =
    r#"category 208 edition "J1" items { item 010 "" byfx element 7 raw } uap { 010 }"#;

const FILE_J2: &str =
    r#"category 208 edition "J2" items { item 010 "" byfx element 7 raw } uap { - - - - - - - 010 }"#;

const FILE_J3: &str =
    r#"category 208 edition "J3" items { item 010 "" byfx element 7 raw } uap { - - - - - - - - - - - - - - - - - - - - - - - - - - - - - - - - - - - - - - - - - - - - - - - - - - - - - - - - - - - - - - - - - - - - - - - - - - - - - - - - - - - - - - - - - - - - - - - - - - - - - - - - - - - - - - - - - - - - - - - - - - - - - 010 }"#;

/// The files of these tests.
#[derive(Clone, Copy)]
pub(crate) enum Edition {
    /// Category 048, its first and its second edition.
    P1,
    P2,
    G1,
    G2,
    H1,
    H2,
    H3,
    Metres,
    Quarters,
    Two,
    Swapped,
    First,
    Deep,
    DeepChanged,
    DeepFlat,
    W,
    WSwapped,
    V1,
    V2,
    J1,
    J2,
    J3,
}

impl Edition {
    fn text(self) -> &'static str {
        match self {
            Edition::P1 => CAT048_P1,
            Edition::P2 => CAT048_P2,
            Edition::G1 => FILE_G1,
            Edition::G2 => FILE_G2,
            Edition::H1 => FILE_H1,
            Edition::H2 => FILE_H2,
            Edition::H3 => FILE_H3,
            Edition::Metres => FILE_METRES,
            Edition::Quarters => FILE_QUARTERS,
            Edition::Two => FILE_TWO,
            Edition::Swapped => FILE_SWAPPED,
            Edition::First => FILE_FIRST,
            Edition::Deep => FILE_DEEP,
            Edition::DeepChanged => FILE_DEEP_CHANGED,
            Edition::DeepFlat => FILE_DEEP_FLAT,
            Edition::W => FILE_W,
            Edition::WSwapped => FILE_W_SWAPPED,
            Edition::V1 => FILE_V1,
            Edition::V2 => FILE_V2,
            Edition::J1 => FILE_J1,
            Edition::J2 => FILE_J2,
            Edition::J3 => FILE_J3,
        }
    }
}

/// The specification of a file.
pub(crate) fn accepted(rt: &impl Abort, alloc: Global, edition: Edition) -> Accepted {
    fixtures::accepted(rt, alloc, edition.text())
}

/// The specifications of two editions of a category.
pub(crate) struct Editions {
    pub(crate) old: Accepted,
    pub(crate) new: Accepted,
}

impl Drop for Editions {
    fn drop(self) {
        let Editions {
            old: _old,
            new: _new,
        } = self;
    }
}

/// The specifications of two files.
pub(crate) fn both(rt: &impl Abort, alloc: Global, old: Edition, new: Edition) -> Editions {
    Editions {
        old: accepted(rt, alloc, old),
        new: accepted(rt, alloc, new),
    }
}

/// The block that octets in hexadecimal are read as.
pub(crate) fn decoded(rt: &impl Abort, alloc: Global, spec: &Spec, block: &str) -> Block
    requires { HasNoFlaw spec.now }
    ensures { BlockFits spec.now result }
{
    let octets = octets_of(rt, alloc, block);
    let raw = raw_of(rt, &octets, block);
    let block = decode_block(alloc, spec, &raw).expect(rt, "a block");
    assert!(rt; fits(spec, &block));
    block
}

/// A report in memory.
pub(crate) fn report_of(rt: &impl Abort, alloc: Global) -> MemSink {
    MemSink::new(alloc, AMPLE, AMPLE, Vec::new(alloc)).expect(rt, "memory")
}

/// Asserts that losses have these lines, as those of block 7.
pub(crate) fn have_lines(rt: &impl Abort, alloc: Global, losses: &LossList, lines: &str, of: &str) {
    let mut report = report_of(rt, alloc);
    for loss in losses.as_slice() {
        loss_line(&mut report, 7, &loss.loss()).expect(rt, "a line that is written");
    }
    same(rt, report.written(), lines.as_bytes(), of);
}

/// Asserts that octets are as wanted, of the block that is named.
pub(crate) fn same(rt: &impl Abort, found: &[u8], wanted: &[u8], of: &str) {
    assert_eq!(rt; found, wanted, "of {of}");
}
