//! What a user reads of each end of a run.

use crate::checks::same_octets;
use crate::specs::spec_of;
use ax_check::flaws;
use ax_command::{
    Cause, FilterFault, InputFault, Outcome, SpecFault, TextFault, line_of, write_lines,
};
use ax_outside::MemSink;
use ax_vectors::FILE_F;
use std::alloc::Global;
use std::process::Abort;

/// An outcome, its exit status, and its lines.
type Said = (Outcome, u8, &'static str);

/// Asserts that the outcome has that exit status, and that these are its lines.
fn says(rt: &impl Abort, alloc: Global, outcome: &Outcome, status: u8, want: &str) {
    let mut sink = MemSink::new(alloc, 1000, 7, Vec::new(alloc)).expect(rt, "memory");
    let whole = write_lines(&mut sink, outcome).is_ok();
    same_octets(rt, sink.written(), want.as_bytes(), want);
    assert!(rt; whole && outcome.status() == status, "of {want}");
}

fn each_says(rt: &impl Abort, alloc: Global, rows: &[Said]) {
    for (outcome, status, want) in rows {
        says(rt, alloc, outcome, *status, want);
    }
}

const WORDS_AND_FILES: [Said; 8] = [
    (Outcome::Usage, 1, "refused usage\n"),
    (
        Outcome::SpecRefused {
            file: 0,
            fault: SpecFault::TooLarge,
        },
        2,
        "refused file 0 TooLarge\n",
    ),
    (
        Outcome::SpecRefused {
            file: 0,
            fault: SpecFault::BadByte { at: 23 },
        },
        2,
        "refused file 0 BadByte at 23\n",
    ),
    (
        Outcome::SpecRefused {
            file: 0,
            fault: SpecFault::TooDeep { token: 55 },
        },
        2,
        "refused file 0 TooDeep token 55\n",
    ),
    (
        Outcome::SpecRefused {
            file: 0,
            fault: SpecFault::BadToken { token: 16 },
        },
        2,
        "refused file 0 BadToken token 16\n",
    ),
    (
        Outcome::CategoryTwice {
            file: 1,
            category: 34,
        },
        2,
        "refused file 1 CategoryTwice 034\n",
    ),
    (
        Outcome::OtherCategory { old: 34, new: 48 },
        2,
        "refused editions 034 048\n",
    ),
    (
        Outcome::ExpansionUnused { category: 4 },
        2,
        "refused expansion 004\n",
    ),
];

#[test]
fn lines_of_refused_words_and_files(rt: HostRuntime) {
    each_says(&rt, rt.alloc(), &WORDS_AND_FILES);
}

const FLAWS_OF_F: &str =
    "flaw file 0 NotOctets 034/010\nflaw file 0 RepeatedInUap 034/uap/010\nrefused file 0 Flawed 2\n";

#[test]
fn lines_of_a_flawed_file(rt: HostRuntime) {
    let spec = spec_of(&rt, rt.alloc(), FILE_F);
    let flaws = flaws(rt.alloc(), &spec).expect(&rt, "memory");
    let fault = SpecFault::Flawed { flaws };
    let outcome = Outcome::SpecRefused { file: 0, fault };
    says(&rt, rt.alloc(), &outcome, 2, FLAWS_OF_F);
}

const EXPRESSIONS: [Said; 5] = [
    (
        Outcome::FilterRefused {
            fault: FilterFault::BadByte { at: 3 },
        },
        2,
        "refused filter BadByte at 3\n",
    ),
    (
        Outcome::FilterRefused {
            fault: FilterFault::TooDeep { token: 32 },
        },
        2,
        "refused filter TooDeep token 32\n",
    ),
    (
        Outcome::FilterRefused {
            fault: FilterFault::BadToken { token: 2 },
        },
        2,
        "refused filter BadToken token 2\n",
    ),
    (
        Outcome::FilterRefused {
            fault: FilterFault::UnknownPath { token: 1 },
        },
        2,
        "refused filter UnknownPath token 1\n",
    ),
    (
        Outcome::FilterRefused {
            fault: FilterFault::NotAnElement { token: 10 },
        },
        2,
        "refused filter NotAnElement token 10\n",
    ),
];

#[test]
fn lines_of_refused_expressions(rt: HostRuntime) {
    each_says(&rt, rt.alloc(), &EXPRESSIONS);
}

const BLOCKS: [Said; 3] = [
    (
        Outcome::InputRefused {
            fault: InputFault {
                cause: Cause::PresenceTooLong,
                block: 0,
                bit: 31,
            },
        },
        3,
        "refused block 0 bit 31 PresenceTooLong\n",
    ),
    (
        Outcome::InputRefused {
            fault: InputFault {
                cause: Cause::EndsInBlock,
                block: 7,
                bit: 40,
            },
        },
        3,
        "refused block 7 bit 40 EndsInBlock\n",
    ),
    (
        Outcome::MigratedTooLong {
            block: 0,
            octets: 98_301,
        },
        3,
        "refused block 0 MigratedTooLong 98301\n",
    ),
];

#[test]
fn lines_of_refused_blocks(rt: HostRuntime) {
    each_says(&rt, rt.alloc(), &BLOCKS);
}

const LINES: [Said; 5] = [
    (
        Outcome::TextRefused {
            line: 1,
            fault: TextFault::LineTooLong,
        },
        3,
        "refused line 1 LineTooLong\n",
    ),
    (
        Outcome::TextRefused {
            line: 0,
            fault: TextFault::BadByte { at: 23 },
        },
        3,
        "refused line 0 BadByte at 23\n",
    ),
    (
        Outcome::TextRefused {
            line: 2,
            fault: TextFault::TooDeep { token: 20 },
        },
        3,
        "refused line 2 TooDeep token 20\n",
    ),
    (
        Outcome::TextRefused {
            line: 7,
            fault: TextFault::BadToken { token: 8 },
        },
        3,
        "refused line 7 BadToken token 8\n",
    ),
    (
        Outcome::TextRefused {
            line: 0,
            fault: TextFault::TooLong { octets: 65_536 },
        },
        3,
        "refused line 0 TooLong 65536\n",
    ),
];

#[test]
fn lines_of_refused_lines(rt: HostRuntime) {
    each_says(&rt, rt.alloc(), &LINES);
}

const OTHER_ENDS: [Said; 7] = [
    (Outcome::Done { blocks: 2 }, 0, ""),
    (Outcome::InputTooLong, 3, "refused input InputTooLong\n"),
    (Outcome::ReportFault, 4, ""),
    (Outcome::LoadFault { file: 0 }, 4, "fault file 0\n"),
    (Outcome::ReadFault, 4, "fault read\n"),
    (Outcome::WriteFault, 4, "fault write\n"),
    (Outcome::OutOfMemory, 5, "refused memory\n"),
];

#[test]
fn lines_of_other_ends(rt: HostRuntime) {
    each_says(&rt, rt.alloc(), &OTHER_ENDS);
}

#[test]
fn line_of_an_accepted_file(rt: HostRuntime) {
    let text = "category 034 edition \"034-E\" items { } uap { }";
    let spec = spec_of(&rt, rt.alloc(), text);
    let line = line_of(rt.alloc(), &spec).expect(&rt, "memory");
    same_octets(
        &rt,
        &line,
        b"accepted 034 \"034-E\" items 0 slots 0\n",
        text,
    );
}
