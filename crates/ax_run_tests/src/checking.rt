//! `check`, refused files and refused words. None of these reads the input.

use crate::world::{Left, Outside, Run, bytes, leaves, leaves_octets};
use ax_vectors::{CAT019_P1, FILE_E, FILE_W};
use std::alloc::Global;
use std::process::Abort;

const INPUT: &str = "22 00 0A E0 19 0C 01 00 00 80";

const LINE_OF_E: &str = "accepted 034 \"034-E\" items 3 slots 3\n";

const LINE_OF_019: &str = "accepted 019 \"019-P1\" items 7 slots 14\n";

const LINE_OF_W: &str = "accepted 206 \"W\" items 2 slots 2\n";

const FLAWS_OF_F: &str =
    "flaw file 0 NotOctets 034/010\nflaw file 0 RepeatedInUap 034/uap/010\nrefused file 0 Flawed 2\n";

const FLAWS_OF_V: &str =
    "flaw file 0 BadScale 210/010\nflaw file 0 DuplicateItem 210/010\nflaw file 0 Empty 210/010\nflaw file 0 UnknownInUap 210/uap/020\nrefused file 0 Flawed 4\n";

// The words, the exit status and the report.
static REFUSED: [(&str, u8, &str); 25] = [
    ("", 1, "refused usage\n"),
    ("canon", 1, "refused usage\n"),
    ("canon -x", 1, "refused usage\n"),
    ("check A E", 1, "refused usage\n"),
    ("check -x", 1, "refused usage\n"),
    ("other A", 1, "refused usage\n"),
    ("filter", 1, "refused usage\n"),
    ("filter A", 1, "refused usage\n"),
    ("filter -x A", 1, "refused usage\n"),
    ("check F", 2, FLAWS_OF_F),
    ("check V", 2, FLAWS_OF_V),
    ("check short", 2, "refused file 0 BadToken token 16\n"),
    ("canon short", 2, "refused file 0 BadToken token 16\n"),
    ("check 256", 2, "refused file 0 BadToken token 1\n"),
    ("canon A 256", 2, "refused file 1 BadToken token 1\n"),
    ("check following", 2, "refused file 0 BadToken token 10\n"),
    ("check unended", 2, "refused file 0 BadByte at 23\n"),
    ("canon unended", 2, "refused file 0 BadByte at 23\n"),
    ("check deep", 2, "refused file 0 TooDeep token 55\n"),
    ("canon deep", 2, "refused file 0 TooDeep token 55\n"),
    ("check large", 2, "refused file 0 TooLarge\n"),
    ("canon large", 2, "refused file 0 TooLarge\n"),
    ("canon A 034", 2, "refused file 1 CategoryTwice 034\n"),
    ("canon Q", 4, "fault file 0\n"),
    ("canon A Q", 4, "fault file 1\n"),
];

#[test]
fn refused_words_and_files(rt: HostRuntime) {
    let alloc = rt.alloc();
    for &(words, status, report) in &REFUSED {
        let want = (status, "", report, 10);
        leaves_octets(&rt, alloc, Run::sound(words, INPUT), want);
    }
}

// The line, and after it the words of the text with one blank between them, as a specification is printed.
fn accepted(rt: &impl Abort, alloc: Global, line: &str, text: &str) -> Vec<u8> {
    let mut made = line.as_bytes().to_vec(alloc).expect(rt, "memory");
    for word in text.split_whitespace() {
        made.extend_from_slice(word.as_bytes()).expect(rt, "memory");
        made.push(b' ').expect(rt, "memory");
    }
    let _blank = made.pop();
    made.push(b'\n').expect(rt, "memory");
    made
}

/// The words of a check, and the line and the text that it writes.
#[derive(Clone, Copy)]
struct Check {
    words: &'static str,
    line: &'static str,
    text: &'static str,
}

/// Asserts that a check writes its line and its text, and reads no input.
fn writes(rt: &impl Abort, alloc: Global, check: Check, outside: Outside) {
    let out = accepted(rt, alloc, check.line, check.text);
    let input = bytes(rt, alloc, INPUT);
    let want = Left {
        status: 0,
        out: &out,
        report: b"",
        left: 10,
    };
    let run = Run {
        words: check.words,
        input: input.as_slice(),
        outside,
    };
    leaves(rt, alloc, run, want);
}

const CHECK_E: Check = Check {
    words: "check E",
    line: LINE_OF_E,
    text: FILE_E,
};

static ACCEPTED: [Check; 5] = [
    CHECK_E,
    Check {
        words: "check commented",
        line: LINE_OF_E,
        text: FILE_E,
    },
    Check {
        words: "check largest",
        line: LINE_OF_E,
        text: FILE_E,
    },
    Check {
        words: "check 019",
        line: LINE_OF_019,
        text: CAT019_P1,
    },
    Check {
        words: "check W",
        line: LINE_OF_W,
        text: FILE_W,
    },
];

#[test]
fn an_accepted_file_is_written_in_one_line(rt: HostRuntime) {
    let alloc = rt.alloc();
    for &check in &ACCEPTED {
        writes(&rt, alloc, check, Outside::Sound);
    }
}

#[test]
fn the_text_of_file_e_is_in_its_words(rt: HostRuntime) {
    let text = accepted(&rt, rt.alloc(), "", FILE_E);
    assert_eq!(rt; text.as_slice(), FILE_E.as_bytes());
}

// The file is loaded once, and its text is one write: a second call of either would fail.
#[test]
fn check_loads_once_and_writes_once(rt: HostRuntime) {
    let alloc = rt.alloc();
    for outside in [Outside::Load(1), Outside::Write(1)] {
        writes(&rt, alloc, CHECK_E, outside);
    }
}
