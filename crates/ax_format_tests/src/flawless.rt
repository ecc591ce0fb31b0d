//! What looks odd and is no flaw.

use crate::texts::items_have_flaws;

const FLAWLESS: [(&str, &str); 6] = [
    // An item that the UAP doesn't use.
    ("item 010 \"\" explicit item 020 \"\" explicit", "020"),
    // A title.
    (
        "item 010 \"#{ part } 7 %&'()\" explicit item 020 \"\" explicit",
        "010 020",
    ),
    // A table entry that the width can't reach.
    (
        "item 010 \"\" element 8 table { 256 \"\" 999999999999999999 \"\" }",
        "010",
    ),
    // A table number given twice.
    (
        "item 010 \"\" element 8 table { 1 \"a\" 1 \"b\" 1 \"a\" }",
        "010",
    ),
    // A UAP whose slots are all spare.
    ("", "- - -"),
    // A compound whose slots are all spare.
    ("item 010 \"\" compound { - - }", "010"),
];

#[test]
fn what_is_no_flaw(rt: HostRuntime) {
    for &(items, uap) in &FLAWLESS {
        items_have_flaws(&rt, rt.alloc(), items, uap, "");
    }
}
