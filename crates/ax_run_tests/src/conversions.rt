//! The category files that a run of `convert` finds, all of one category.

use ax_vectors::{FILE_Y1, FILE_Y2, FILE_Y3, FILE_Y4};

static TEXTS: [(&str, &str); 26] = [
    ("Y1", FILE_Y1),
    ("Y2", FILE_Y2),
    ("Y3", FILE_Y3),
    ("Y4", FILE_Y4),
    (
        "pair-1",
        r#"category 209 edition "P1" items { item 010 "" group { A element 8 quantity unsigned 1 2 "m" B element 8 quantity unsigned 1 2 "m" } item 020 "" element 8 raw } uap { 010 020 }"#,
    ),
    (
        "pair-2",
        r#"category 209 edition "P2" items { item 010 "" group { A element 8 quantity unsigned 1 1 "m" B element 8 quantity unsigned 1 1 "m" } item 020 "" element 8 raw } uap { 010 020 }"#,
    ),
    (
        "list-1",
        r#"category 209 edition "L1" items { item 010 "" counted { group { A element 8 quantity unsigned 1 2 "m" B element 8 raw } } } uap { 010 }"#,
    ),
    (
        "list-2",
        r#"category 209 edition "L2" items { item 010 "" counted { group { A element 8 quantity unsigned 1 1 "m" B element 8 raw } } } uap { 010 }"#,
    ),
    (
        "fx-7",
        r#"category 209 edition "F1" items { item 010 "" byfx element 7 quantity unsigned 1 1 "m" } uap { 010 }"#,
    ),
    (
        "fx-15",
        r#"category 209 edition "F2" items { item 010 "" byfx element 15 quantity unsigned 1 2 "m" } uap { 010 }"#,
    ),
    (
        "table-1",
        r#"category 209 edition "T1" items { item 010 "" element 8 table { 1 "one" } } uap { 010 }"#,
    ),
    (
        "table-2",
        r#"category 209 edition "T2" items { item 010 "" element 8 table { 1 "first" 2 "second" } } uap { 010 }"#,
    ),
    (
        "table-16",
        r#"category 209 edition "T3" items { item 010 "" element 16 table { 1 "one" } } uap { 010 }"#,
    ),
    (
        "part-1",
        r#"category 209 edition "E1" items { item 010 "" extended { part { A element 7 quantity unsigned 1 1 "m" } } } uap { 010 }"#,
    ),
    (
        "part-2",
        r#"category 209 edition "E2" items { item 010 "" extended { part { A element 7 quantity unsigned 1 2 "m" } } } uap { 010 }"#,
    ),
    (
        "inner-1",
        r#"category 209 edition "N1" items { item 010 "" counted { compound { A element 8 quantity unsigned 1 2 "m" B element 8 raw } } } uap { 010 }"#,
    ),
    (
        "inner-2",
        r#"category 209 edition "N2" items { item 010 "" counted { compound { A element 8 quantity unsigned 1 1 "m" B element 8 raw } } } uap { 010 }"#,
    ),
    (
        "order-1",
        r#"category 209 edition "O1" items { item 010 "" compound { A element 8 quantity unsigned 1 2 "m" B element 8 quantity unsigned 1 4 "m" } } uap { 010 }"#,
    ),
    (
        "order-2",
        r#"category 209 edition "O2" items { item 010 "" compound { B element 16 quantity unsigned 1 8 "m" A element 8 quantity unsigned 1 1 "m" } } uap { 010 }"#,
    ),
    (
        "four-1",
        r#"category 209 edition "M1" items { item 010 "" element 8 quantity unsigned 1 2 "m" item 020 "" element 8 raw item 030 "" element 8 quantity unsigned 1 2 "m" item 040 "" element 8 quantity unsigned 1 2 "m" } uap { 010 020 030 040 }"#,
    ),
    (
        "four-2",
        r#"category 209 edition "M2" items { item 010 "" element 8 quantity unsigned 1 1 "m" item 020 "" element 16 raw item 030 "" element 8 quantity unsigned 1 1 "m" item 040 "" element 8 quantity unsigned 1 1 "km" } uap { 040 030 020 010 }"#,
    ),
    (
        "signed-8",
        r#"category 209 edition "S1" items { item 010 "" element 8 quantity signed 1 1 "m" } uap { 010 }"#,
    ),
    (
        "unsigned-16",
        r#"category 209 edition "S2" items { item 010 "" element 16 quantity unsigned 1 1 "m" } uap { 010 }"#,
    ),
    (
        "signed-16",
        r#"category 209 edition "S3" items { item 010 "" element 16 quantity signed 1 2 "m" } uap { 010 }"#,
    ),
    (
        "long-1",
        r#"category 209 edition "B1" items { item 010 "" element 8 quantity unsigned 1 2 "m" item 020 "" byfx element 7 quantity unsigned 1 1 "m" } uap { 010 020 }"#,
    ),
    (
        "long-2",
        r#"category 209 edition "B2" items { item 010 "" element 8 quantity unsigned 1 1 "m" item 020 "" byfx element 15 quantity unsigned 1 2 "m" } uap { 010 020 }"#,
    ),
];

/// Each of these files, by its name.
pub fn conversion_texts() -> &'static [(&'static str, &'static str)] {
    &TEXTS
}
