//! The first bad token of texts that are no block's.

use crate::text_catalogues::{Line, Repeated, add_file, catalogue_of, is_bad_at};
use ax_check::Catalogue;
use ax_vectors::{CAT048_P1, FILE_A, FILE_H1, FILE_N};
use std::alloc::Global;
use std::process::Abort;

// Lines under category 048, and the number of the first bad token.
const BAD: [(&str, u32); 36] = [
    ("block 048 { record { 010 { SAC 256 SIC 12 } } }", 8),
    ("block 048 { record { 010 { SAC 025 SIC 12 } } }", 8),
    ("block 048 { record { 010 { SAC +25 SIC 12 } } }", 8),
    ("block 048 { record { 010 { SIC 12 SAC 25 } } }", 7),
    ("block 048 { record { 010 { SAC 25 } } }", 9),
    ("block 048 { record { 010 { SAC 25 SIC 12 SAC 1 } } }", 11),
    ("block 048 { record { 140 1 010 { SAC 1 SIC 1 } } }", 7),
    ("block 048 { record { 140 1 140 1 } }", 7),
    ("block 048 { record { 141 1 } }", 5),
    ("block 048 { record { 140 } }", 6),
    ("block 048 { record { 140 16777216 } }", 6),
    ("block 048 { record { SP \"AA\" } }", 6),
    ("block 048 { record { SP \"aa \" } }", 6),
    ("block 048 { record { SP aa } }", 6),
    ("block 048 { record { 161 { TRN 42 } } }", 7),
    ("block 048 { record { 161 { spare 16 TRN 42 } } }", 8),
    ("block 048 { record { 020 { } } }", 7),
    (
        "block 048 { record { 020 { part { TYP 5 SIM 0 RDP 0 SPI 0 RAB 0 } part { TST 0 ME 0 } } } }",
        24,
    ),
    (
        "block 048 { record { 020 { part { TYP 5 SIM 0 RDP 0 SPI 0 RAB 0 } part { TST 0 spare 0 ME 0 MI 0 FOEFRI 0 } part { } } } }",
        33,
    ),
    ("block 048 { record { 030 { } } }", 7),
    ("block 048 { record { 030 { 5 128 } } }", 8),
    ("block 048 { record { 130 { APD 8 SRL 7 } } }", 9),
    ("block 048 { record { 250 { 0 } } }", 7),
    ("block 048 { record { } } x", 7),
    ("block 048 { record { } } block 048 { record { } }", 7),
    ("block 048 { }", 3),
    ("block 048 record { }", 2),
    ("block 48 { record { } }", 1),
    ("block 256 { record { } }", 1),
    ("block 049 { record { } }", 1),
    ("blocks 048 { record { } }", 0),
    ("", 0),
    ("block", 1),
    ("block 048 { record {", 5),
    ("block 048 { record { }", 6),
    ("block 048 { record { SP", 6),
];

// Category files, lines, and the number of the first bad token.
const OTHER_BAD: [(&str, &str, u32); 7] = [
    (FILE_A, "opaque 034 \"00\"", 1),
    (FILE_A, "block 062 { record { } }", 1),
    (FILE_A, "opaque 062 \"\"", 2),
    (FILE_A, "opaque 062 \"8\"", 2),
    (FILE_A, "opaque 062 \"8G\"", 2),
    (FILE_N, "block 200 { record { 010 { { H 34 A 17 } } } }", 10),
    (FILE_H1, "block 202 { record { 010 { B 1 A 1 } } }", 9),
];

#[test]
fn the_first_bad_token_is_named(rt: HostRuntime) {
    let alloc = rt.alloc();
    let catalogue = catalogue_of(&rt, alloc, CAT048_P1);
    for &(line, want) in &BAD {
        is_bad_at(&rt, alloc, &catalogue, &Line::of(line), want);
    }
}

/// Asserts the number of the first bad token of a line under a file.
fn is_bad_under(rt: &impl Abort, alloc: Global, &(file, line, want): &(&str, &str, u32)) {
    let catalogue = catalogue_of(rt, alloc, file);
    is_bad_at(rt, alloc, &catalogue, &Line::of(line), want);
}

#[test]
fn the_first_bad_token_under_other_files(rt: HostRuntime) {
    for row in &OTHER_BAD {
        is_bad_under(&rt, rt.alloc(), row);
    }
}

// An SP of 255 octets, and a 256th occurrence of item 250.
static TOO_MANY: [(Repeated, u32); 2] = [
    (
        Repeated {
            front: "block 048 { record { SP \"",
            count: 255,
            middle: "0a",
            end: "\" } }",
        },
        6,
    ),
    (
        Repeated {
            front: "block 048 { record { 250 {",
            count: 256,
            middle: " { MB 1 BDS1 2 BDS2 3 }",
            end: " } } }",
        },
        2047,
    ),
];

/// Asserts the number of the first bad token of a line with so many middles, which is named by its front.
fn is_bad_where_repeated(
    rt: &impl Abort,
    alloc: Global,
    catalogue: &Catalogue,
    repeated: &Repeated,
    want: u32,
) {
    let octets = repeated.made(rt, alloc);
    let line = Line {
        octets: &octets,
        name: repeated.front,
    };
    is_bad_at(rt, alloc, catalogue, &line, want);
}

#[test]
fn a_list_has_at_most_so_many(rt: HostRuntime) {
    let catalogue = catalogue_of(&rt, rt.alloc(), CAT048_P1);
    for (repeated, want) in &TOO_MANY {
        is_bad_where_repeated(&rt, rt.alloc(), &catalogue, repeated, *want);
    }
}

#[test]
fn without_a_file_no_text_begins_with_block(rt: HostRuntime) {
    let catalogue = Catalogue::new(rt.alloc());
    let line = Line::of("block 048 { record { } }");
    is_bad_at(&rt, rt.alloc(), &catalogue, &line, 0);
}

/// A catalogue with a file of each category, which has no item.
fn all_categories(rt: &impl Abort, alloc: Global) -> Catalogue {
    let mut catalogue = Catalogue::new(alloc);
    for category in 0..256u32 {
        let text = format!(in alloc; "category {category:03} edition \"\" items {{ }} uap {{ - }}");
        add_file(
            rt,
            alloc,
            &mut catalogue,
            text.expect(rt, "memory").as_str(),
        );
    }
    catalogue
}

#[test]
fn with_all_categories_no_text_begins_with_opaque(rt: HostRuntime) {
    let catalogue = all_categories(&rt, rt.alloc());
    let line = Line::of("opaque 062 \"00\"");
    is_bad_at(&rt, rt.alloc(), &catalogue, &line, 0);
}
