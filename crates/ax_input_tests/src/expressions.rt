//! Expressions, and the first fault of their texts.
use crate::filter_fixtures::{catalogue, filter_of, is_refused};
use ax_vectors::{CAT034_P1, CAT048_P1};

// Each form, a path of each category, numbers of 38 digits, and braces 16 deep.
const ACCEPTED: [&str; 17] = [
    "all { }",
    "any { }",
    "not { all { } }",
    "any { present 034/010 not { present 048/010/SAC } }",
    "all{present 034/010}# a comment",
    "present 048/250",
    "present 048/130",
    "present 048/130/SRL",
    "present 048/120/RDS",
    "present 048/SP",
    "is 048/020/TST >= 1",
    "is 048/130/SRL != 0",
    "is 034/000 = 1",
    "is 048/010/SAC = 0",
    "is 034/030 < 99999999999999999999999999999999999999",
    "is 048/042/X > -99999999999999999999999999999999999999",
    "all { all { all { all { all { all { all { all { all { all { all { all { all { all { all { all { } } } } } } } } } } } } } } } }",
];

#[test]
fn each_form_is_read(rt: HostRuntime) {
    let files = catalogue(&rt, rt.alloc(), CAT034_P1, CAT048_P1);
    for &text in &ACCEPTED {
        let _ = filter_of(&rt, rt.alloc(), &files, text);
    }
}

// Each fault, and of two the one that is named: octets and braces before tokens, and of tokens the smallest number.
const REFUSED: [(&str, &str); 55] = [
    ("", "BadToken { token: 0 }"),
    ("# a comment", "BadToken { token: 0 }"),
    ("some { }", "BadToken { token: 0 }"),
    ("{ }", "BadToken { token: 0 }"),
    ("all", "BadToken { token: 1 }"),
    ("all present 048/010", "BadToken { token: 1 }"),
    ("all { present", "BadToken { token: 3 }"),
    ("all { present 048/010", "BadToken { token: 4 }"),
    ("present", "BadToken { token: 1 }"),
    ("present 048/010 present", "BadToken { token: 2 }"),
    ("not { }", "BadToken { token: 2 }"),
    ("not { all { } all { } }", "BadToken { token: 5 }"),
    ("is 048/010/SAC 25", "BadToken { token: 2 }"),
    ("is 048/010/SAC == 25", "BadToken { token: 2 }"),
    ("is 048/010/SAC =", "BadToken { token: 3 }"),
    ("is 048/010/SAC = -0", "BadToken { token: 3 }"),
    ("is 048/010/SAC = 00", "BadToken { token: 3 }"),
    ("is 048/010/SAC = 025", "BadToken { token: 3 }"),
    ("is 048/010/SAC = +25", "BadToken { token: 3 }"),
    ("is 048/010/SAC = -", "BadToken { token: 3 }"),
    (
        "is 048/010/SAC = 100000000000000000000000000000000000000",
        "BadToken { token: 3 }",
    ),
    (
        "is 048/010/SAC = -100000000000000000000000000000000000000",
        "BadToken { token: 3 }",
    ),
    ("present 300/010", "BadToken { token: 1 }"),
    ("present 48/010", "BadToken { token: 1 }"),
    ("present 048", "BadToken { token: 1 }"),
    ("present 048/", "BadToken { token: 1 }"),
    ("present 048/010/", "BadToken { token: 1 }"),
    ("present 048//010", "BadToken { token: 1 }"),
    ("present 048/sac", "BadToken { token: 1 }"),
    ("present 048/ABCDEFGHIJKLMNOPQ", "BadToken { token: 1 }"),
    ("present \"048/010\"", "BadToken { token: 1 }"),
    ("present 062/010", "UnknownPath { token: 1 }"),
    ("present 048/011", "UnknownPath { token: 1 }"),
    ("is 048/010/SAX = 25", "UnknownPath { token: 1 }"),
    ("is 048/250/MB = 1", "UnknownPath { token: 1 }"),
    ("is 048/120/RDS/X = 1", "UnknownPath { token: 1 }"),
    ("present 048/030/X", "UnknownPath { token: 1 }"),
    ("present 048/ABCDEFGHIJKLMNOP", "UnknownPath { token: 1 }"),
    ("is 048/010 = 25", "NotAnElement { token: 1 }"),
    ("is 048/020 = 1", "NotAnElement { token: 1 }"),
    ("is 048/130 = 1", "NotAnElement { token: 1 }"),
    ("is 048/250 = 1", "NotAnElement { token: 1 }"),
    ("is 048/030 = 1", "NotAnElement { token: 1 }"),
    ("is 048/SP = 1", "NotAnElement { token: 1 }"),
    (
        "all { is 048/010 = 1 present 048/999 }",
        "NotAnElement { token: 3 }",
    ),
    (
        "all { present 048/999 is 048/010 = 1 }",
        "UnknownPath { token: 3 }",
    ),
    (
        "all { present 048/999 present }",
        "UnknownPath { token: 3 }",
    ),
    ("all { present present 048/999 }", "BadToken { token: 3 }"),
    ("all { is 048/010 = 1 is", "NotAnElement { token: 3 }"),
    ("present 048/999 \"", "BadByte { at: 17 }"),
    ("all { \"x", "BadByte { at: 8 }"),
    ("all { \x01 }", "BadByte { at: 6 }"),
    (
        "all { all { all { all { all { all { all { all { all { all { all { all { all { all { all { all { all {",
        "TooDeep { token: 33 }",
    ),
    (
        "present 048/999 all { all { all { all { all { all { all { all { all { all { all { all { all { all { all { all { all {",
        "TooDeep { token: 35 }",
    ),
    (
        "all { all { all { all { all { all { all { all { all { all { all { all { all { all { all { all { all { \"",
        "TooDeep { token: 33 }",
    ),
];

#[test]
fn the_first_fault_is_named(rt: HostRuntime) {
    let files = catalogue(&rt, rt.alloc(), CAT034_P1, CAT048_P1);
    for &(text, want) in &REFUSED {
        is_refused(&rt, rt.alloc(), &files, text, want);
    }
}
