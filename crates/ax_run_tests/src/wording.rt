//! Words that ask for no input, and words that ask for nothing.

use crate::world::{Left, Run, leaves};

const HELP: &str =
    "asterix check SPEC\nasterix canon SPEC...\nasterix show SPEC...\nasterix text SPEC...\nasterix build SPEC...\nasterix filter EXPR SPEC...\nasterix migrate OLD NEW\nasterix trial SPEC SEED COUNT\nasterix salvage SPEC...\nasterix expand SPEC EXPANSION\nasterix convert OLD NEW\n";

const ONE_BLOCK: &str = "blocks 1 records 3 octets 6 canonical 6 sum 209\n";

const NO_BLOCK: &str = "blocks 0 records 0 octets 0 canonical 0 sum 0\n";

const USAGE: &str = "refused usage\n";

// The words, the exit status, the output and the report. The input isn't read.
static WORDS: [(&str, u8, &str, &str); 21] = [
    ("--help", 0, HELP, ""),
    ("--version", 0, "asterix 1\n", ""),
    ("trial Z 0 1", 0, ONE_BLOCK, ""),
    ("trial Z 0 0", 0, NO_BLOCK, ""),
    ("trial none 0 1", 4, "", "fault file 0\n"),
    ("", 1, "", USAGE),
    ("canon", 1, "", USAGE),
    ("build", 1, "", USAGE),
    ("canon -x", 1, "", USAGE),
    ("check A E", 1, "", USAGE),
    ("trial Z 01 1", 1, "", USAGE),
    ("trial Z 0", 1, "", USAGE),
    ("help", 1, "", USAGE),
    ("help canon", 1, "", USAGE),
    ("--help A", 1, "", USAGE),
    ("--version --help", 1, "", USAGE),
    ("-- canon A", 1, "", USAGE),
    ("canon A --help", 1, "", USAGE),
    ("trial 048 18446744073709551616 1", 1, "", USAGE),
    ("trial 048 1 1000001", 1, "", USAGE),
    ("migrate 048", 1, "", USAGE),
];

const INPUT: &[u8] = b"\x3e\x00\x05\x80\xff";

#[test]
fn words_alone(rt: HostRuntime) {
    let alloc = rt.alloc();
    for &(words, status, out, report) in &WORDS {
        let want = Left {
            status,
            out: out.as_bytes(),
            report: report.as_bytes(),
            left: 5,
        };
        leaves(&rt, alloc, Run::sound(words, INPUT), want);
    }
}
