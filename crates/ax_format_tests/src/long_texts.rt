//! Texts of blocks whose canonical form is too long.

use crate::text_catalogues::{Line, Repeated, block_of, catalogue_of, is_bad_at, is_too_long};
use ax_check::Catalogue;
use ax_vectors::{CAT048_P1, FILE_A};
use std::alloc::Global;
use std::process::Abort;

#[test]
fn records_of_65533_octets_are_too_long(rt: HostRuntime) {
    let catalogue = catalogue_of(&rt, rt.alloc(), CAT048_P1);
    let records = Repeated {
        front: "block 048 {",
        count: 65_533,
        middle: " record { }",
        end: " }",
    };
    let line = records.made(&rt, rt.alloc());
    is_too_long(&rt, rt.alloc(), &catalogue, &line, 65_536);
}

/// An opaque block of that many octets, and what stands after it.
fn opaque(rt: &impl Abort, alloc: Global, count: u32, end: &'static str) -> Vec<u8> {
    let octets = Repeated {
        front: "opaque 062 \"",
        count,
        middle: "0a",
        end,
    };
    octets.made(rt, alloc)
}

fn is_read(rt: &impl Abort, alloc: Global, catalogue: &Catalogue, count: u32) {
    let line = opaque(rt, alloc, count, "\"");
    let _block = block_of(rt, alloc, catalogue, &line);
}

fn is_long(rt: &impl Abort, alloc: Global, catalogue: &Catalogue, count: u32, want: u64) {
    let line = opaque(rt, alloc, count, "\"");
    is_too_long(rt, alloc, catalogue, &line, want);
}

// A bad token comes before the length.
fn is_bad(rt: &impl Abort, alloc: Global, catalogue: &Catalogue, count: u32, want: u32) {
    let octets = opaque(rt, alloc, count, "\" x");
    let line = Line {
        octets: &octets,
        name: "octets",
    };
    is_bad_at(rt, alloc, catalogue, &line, want);
}

#[test]
fn opaque_octets_are_too_long(rt: HostRuntime) {
    let catalogue = catalogue_of(&rt, rt.alloc(), FILE_A);
    is_read(&rt, rt.alloc(), &catalogue, 65_532);
    is_long(&rt, rt.alloc(), &catalogue, 65_533, 65_536);
    is_bad(&rt, rt.alloc(), &catalogue, 65_533, 3);
}
