//! What becomes of files of ax_vectors.

use crate::texts::read;
use ax_check::{CheckError, accept};
use ax_model::Spec;
use ax_tokens::{LexError, tokens};
use ax_vectors::{
    CAT019_P1, CAT034_P1, CAT048_P1, CAT048_P2, FILE_A, FILE_E, FILE_F, FILE_G1, FILE_G2, FILE_H1,
    FILE_H2, FILE_H3, FILE_K, FILE_N, FILE_S, FILE_W, FILE_Z, NESTED_TOO_DEEP,
};
use std::alloc::Global;
use std::process::Abort;

/// The number of flaws of a specification, if memory was left. It is accepted where there is none.
fn flaw_count(alloc: Global, spec: Spec) -> Option<u32> {
    match accept(alloc, spec) {
        Ok(_) => Some(0),
        Err(CheckError::Flawed { flaws }) => Some(flaws.count()),
        Err(CheckError::OutOfMemory) => None,
    }
}

/// Asserts the number of flaws of a text.
fn has_so_many_flaws(rt: &impl Abort, alloc: Global, text: &str, wanted: u32) {
    let found = flaw_count(alloc, read(rt, alloc, text));
    assert!(rt; found == Some(wanted), "{found:?} flaws in {text}");
}

const ACCEPTED: [&str; 16] = [
    CAT019_P1, CAT034_P1, CAT048_P1, CAT048_P2, FILE_A, FILE_E, FILE_G1, FILE_G2, FILE_H1, FILE_H2,
    FILE_H3, FILE_K, FILE_N, FILE_S, FILE_W, FILE_Z,
];

#[test]
fn each_file_but_one_is_accepted(rt: HostRuntime) {
    for &text in &ACCEPTED {
        has_so_many_flaws(&rt, rt.alloc(), text, 0);
    }
    has_so_many_flaws(&rt, rt.alloc(), FILE_F, 2);
}

#[test]
fn a_file_nested_too_deep_has_no_tokens(rt: HostRuntime) {
    let found = tokens(rt.alloc(), NESTED_TOO_DEEP.as_bytes(), 16);
    assert!(rt; matches!(found, Err(LexError::TooDeep { token: 55 })));
}
