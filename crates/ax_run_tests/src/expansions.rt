//! The expansion files that a run finds, and category files with an item RE for them.

use ax_vectors::{FILE_X, FILE_X2};

static TEXTS: [(&str, &str); 19] = [
    ("T1", FILE_X),
    ("T2", FILE_X2),
    (
        "T1-034",
        r#"expansion 034 edition "T1" fixed 1 { A element 8 raw }"#,
    ),
    (
        "two",
        r#"expansion 048 edition "T3" fixed 2 { A element 8 raw }"#,
    ),
    (
        "fixed-16",
        r#"expansion 048 edition "T1" fixed 16 { A element 8 raw }"#,
    ),
    (
        "fixed-0",
        r#"expansion 048 edition "T1" fixed 0 { A element 8 raw }"#,
    ),
    (
        "fixed-01",
        r#"expansion 048 edition "T1" fixed 01 { A element 8 raw }"#,
    ),
    (
        "fixed",
        r#"expansion 048 edition "T1" fixed { A element 8 raw }"#,
    ),
    (
        "fx-1",
        r#"expansion 048 edition "T1" fx 1 { A element 8 raw }"#,
    ),
    (
        "nine-slots",
        r#"expansion 048 edition "T1" fixed 1 { A element 8 raw - - - - - - - B element 8 raw }"#,
    ),
    (
        "more",
        r#"expansion 048 edition "T1" fx { A element 8 raw } }"#,
    ),
    ("open", r#"expansion 048 edition "T1" fx { A element 8 raw"#),
    ("no-kind", r#"expansion 048 edition "T1" fx { A }"#),
    (
        "no-kind-fixed",
        r#"expansion 048 edition "T1" fixed 1 { A }"#,
    ),
    (
        "no-octets",
        r#"expansion 048 edition "T1" fx { A element 7 raw }"#,
    ),
    // The UAP has an item RE that isn't explicit; has none, though there is one; and has one in slot 2.
    (
        "re-element",
        r#"category 048 edition "R" items { item RE "" element 8 raw } uap { RE }"#,
    ),
    (
        "re-beside",
        r#"category 048 edition "R" items { item 010 "" element 8 raw item RE "" explicit } uap { 010 }"#,
    ),
    (
        "re-2",
        r#"category 048 edition "R" items { item 010 "" element 8 raw item RE "" explicit } uap { 010 RE }"#,
    ),
    (
        "re-not-named",
        r#"category 048 edition "R" items { item SP "" explicit } uap { SP }"#,
    ),
];

/// The texts of these files, by name.
pub fn expansion_texts() -> &'static [(&'static str, &'static str)] {
    &TEXTS
}
