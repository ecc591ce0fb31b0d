//! Records that are walked over by rows, and those that the rows decline.

use crate::seeing::each_of_file_is_read;

// A UAP of 58 slots, so that its presence field has up to nine octets. All slots but three are spare.
const FILE_NINE: &str = r#"category 211 edition "R" items {
item 010 "" element 8 raw
item 020 "" extended { part { A element 7 raw } part { B element 7 raw } }
item 030 "" element 16 raw
} uap { 010
- - - - - - - - - - - - - - - - - - - - - - - - - - - -
- - - - - - - - - - - - - - - - - - - - - - - - - - -
020 030 }"#;

// A whole field of nine octets; one whose last octet marks nothing; a slot past the last and a spare one, marked; a field that goes on
// after its ninth octet; a record that ends with the body, and one that would end after it.
static FIELDS: [(&str, &str); 7] = [
    (
        "D3 00 11 81 01 01 01 01 01 01 01 C0 05 0B 0C 00 07",
        "211 {1=5 57=<5|6> 58=7}",
    ),
    ("D3 00 0D 81 01 01 01 01 01 01 01 00 05", "211 {1=5}"),
    ("D3 00 0D 81 01 01 01 01 01 01 01 20 05", "UndefinedSlot 66"),
    ("D3 00 06 81 80 05", "UndefinedSlot 8"),
    (
        "D3 00 0D 81 01 01 01 01 01 01 01 01 05",
        "PresenceTooLong 71",
    ),
    ("D3 00 07 80 05 80 06", "211 {1=5}{1=6}"),
    ("D3 00 06 80 05 80", "RunsOut 24"),
];

#[test]
fn fields_of_up_to_nine_octets_are_read(rt: HostRuntime) {
    each_of_file_is_read(&rt, rt.alloc(), FILE_NINE, &FIELDS);
}
