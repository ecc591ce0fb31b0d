//! What stands in a record, looked at through views.

use crate::fixtures::{accepted, codec_of, octets_of, raw_of, same};
use crate::seeing::{each_is_read, is_read_as};
use crate::shown::{push, push_octets};
use ax_check::Accepted;
use ax_model::{Path, Place};
use ax_tables::Codec;
use ax_vectors::{CAT048_P1, FILE_A, FILE_N, FILE_S, FILE_W};
use ax_view::{ItemView, RecordView, scan};
use std::alloc::Global;
use std::process::Abort;

// Groups nested as deep as a file's braces go.
const FILE_DEEPEST: &str =
    r#"category 209 edition "D" items { item 010 "" group { A group { A group { A group { A group { A group { A
group { A group { A group { A group { A group { A group { A group { A group { A group { A element 8 raw
} } } } } } } } } } } } } } } } uap { 010 }"#;

static BODIES: [(&str, &str, &str); 8] = [
    (CAT048_P1, "30 00 07 81 00 19 0C", "48 {1=(25 12)}"),
    (CAT048_P1, "30 00 04 00", "48 {}"),
    (CAT048_P1, "30 00 04 81", "RunsOut 8"),
    (FILE_A, "22 00 04 01", "PresenceTooLong 7"),
    (FILE_A, "22 00 04 10", "UndefinedSlot 3"),
    (FILE_S, "CC 00 04 41", "UndefinedSlot 1"),
    (FILE_S, "CC 00 04 00", "204 {}"),
    (
        FILE_DEEPEST,
        "D1 00 05 80 07",
        "209 {1=(((((((((((((((7)))))))))))))))}",
    ),
];

#[test]
fn bodies_are_read_alike_by_trees_and_by_views(rt: HostRuntime) {
    each_is_read(&rt, rt.alloc(), &BODIES);
}

// A file with a group of that many spares of 128 bits, and one of 96.
fn group_of_spares(rt: &impl Abort, alloc: Global, count: usize) -> String {
    let spares = "spare 128 ".repeat(alloc, count).expect(rt, "memory");
    let text = format!(in alloc;
        "category 209 edition \"W\" items {{ item 010 \"\" group {{ {spares}spare 96 }} }} uap {{ 010 }}"
    );
    text.expect(rt, "memory")
}

// 524,256 bits are the widest group, and the octets of the longest body: with a presence field before it, it never fits.
#[test]
fn the_widest_group_never_fits(rt: HostRuntime) {
    let text = group_of_spares(&rt, rt.alloc(), 4095);
    let file = accepted(&rt, rt.alloc(), text.as_str());
    is_read_as(&rt, rt.alloc(), &file, "D1 00 07 00 80 01 02", "RunsOut 16");
}

/// The place of a path of a file.
fn place_of(rt: &impl Abort, alloc: Global, file: &Accepted, text: &str) -> Place {
    assert!(rt; text.len() < 100);
    let path = Path::of(alloc, text.as_bytes()).expect(rt, "memory");
    let path = path.expect(rt, "a path");
    let place = file.resolve(alloc, &path).expect(rt, "memory");
    place.expect(rt, "a place")
}

/// The first record of a body.
fn first_record<'c, 'a>(rt: &impl Abort, codec: &'c Codec, body: &'a [u8]) -> RecordView<'c, 'a> {
    assert!(rt; !body.is_empty());
    assert!(rt; body.len() <= 65_532);
    let view = scan(codec, body).expect(rt, "records");
    view.records().next().expect(rt, "a record")
}

/// A block, the path of an element, its number in the first record, where one stands, and whether it is present.
#[derive(Clone, Copy)]
struct Number {
    block: &'static str,
    path: &'static str,
    want: &'static str,
}

// A part that isn't there has no number.
static NUMBERS: [Number; 7] = [
    Number {
        block: "30 00 06 20 A1 00",
        path: "020/TYP",
        want: "Some(5) true",
    },
    Number {
        block: "30 00 06 20 A1 00",
        path: "020/TST",
        want: "Some(0) true",
    },
    Number {
        block: "30 00 06 20 A1 80",
        path: "020/TST",
        want: "Some(1) true",
    },
    Number {
        block: "30 00 05 20 A0",
        path: "020/TYP",
        want: "Some(5) true",
    },
    Number {
        block: "30 00 05 20 A0",
        path: "020/TST",
        want: "None false",
    },
    Number {
        block: "30 00 05 20 A0",
        path: "010/SAC",
        want: "None false",
    },
    Number {
        block: "30 00 06 80 19 0C",
        path: "010/SIC",
        want: "Some(12) true",
    },
];

/// The number at a place of a record, and whether the place is present.
fn number_told(
    rt: &impl Abort,
    alloc: Global,
    record: &RecordView<'_, '_>,
    place: &Place,
) -> String {
    let number = record.number(place);
    let is_present = record.present(place);
    format!(in alloc; "{number:?} {is_present}").expect(rt, "memory")
}

/// Asserts that in the first record of a block that number stands at a path, and whether the path is present.
fn has_number(
    rt: &impl Abort,
    alloc: Global,
    file: &Accepted,
    codec: &Codec,
    &Number { block, path, want }: &Number,
) {
    let place = place_of(rt, alloc, file, path);
    let octets = octets_of(rt, alloc, block);
    let record = first_record(rt, codec, raw_of(rt, &octets, block).body);
    let got = number_told(rt, alloc, &record, &place);
    let of = format!(in alloc; "{path} of {block}").expect(rt, "memory");
    same(rt, got.as_str(), want, of.as_str());
}

fn each_has_its_number(rt: &impl Abort, alloc: Global, text: &str) {
    let file = accepted(rt, alloc, text);
    let codec = codec_of(rt, alloc, &file);
    for number in &NUMBERS {
        has_number(rt, alloc, &file, &codec, number);
    }
}

#[test]
fn numbers_stand_where_their_places_are_present(rt: HostRuntime) {
    each_has_its_number(&rt, rt.alloc(), CAT048_P1);
}

/// The octets of an item's parts, a bar after each.
fn push_parts(rt: &impl Abort, text: &mut String, item: &ItemView<'_, '_>) {
    for part in item.parts() {
        push_octets(rt, text, part);
        push(rt, text, "|");
    }
}

/// The octets of the subitem of that slot in each of an item's occurrences, a bar after each occurrence.
fn push_subitems(rt: &impl Abort, text: &mut String, item: &ItemView<'_, '_>, slot: u32) {
    for occurrence in item.occurrences() {
        if let Some(subitem) = occurrence.subitem(slot) {
            push_octets(rt, text, subitem.octets());
        }
        push(rt, text, "|");
    }
}

/// The content of an explicit item.
fn push_content(rt: &impl Abort, text: &mut String, item: &ItemView<'_, '_>) {
    match item.explicit() {
        Some(content) => push_octets(rt, text, content),
        None => push(rt, text, "none"),
    }
}

/// The octets of an item, its parts, the subitems of two slots of its occurrences, and its content.
fn push_item(rt: &impl Abort, text: &mut String, item: &ItemView<'_, '_>) {
    push_octets(rt, text, item.octets());
    push(rt, text, ", parts ");
    push_parts(rt, text, item);
    push(rt, text, ", subitems 1 ");
    push_subitems(rt, text, item, 1);
    push(rt, text, ", subitems 8 ");
    push_subitems(rt, text, item, 8);
    push(rt, text, ", content ");
    push_content(rt, text, item);
}

/// What stands in an item of the first record of a body.
fn item_told(rt: &impl Abort, alloc: Global, codec: &Codec, body: &[u8], frn: u32) -> String {
    let mut text = String::new(alloc);
    match first_record(rt, codec, body).item(frn) {
        Some(item) => push_item(rt, &mut text, &item),
        None => push(rt, &mut text, "no item"),
    }
    text
}

/// Asserts what stands in an item of the first record of a block.
fn item_is(rt: &impl Abort, alloc: Global, codec: &Codec, (block, frn): (&str, u32), want: &str) {
    let octets = octets_of(rt, alloc, block);
    let got = item_told(rt, alloc, codec, raw_of(rt, &octets, block).body, frn);
    same(rt, got.as_str(), want, block);
}

/// The same under the file of that text.
fn item_is_told(rt: &impl Abort, alloc: Global, text: &str, item: (&str, u32), want: &str) {
    let file = accepted(rt, alloc, text);
    item_is(rt, alloc, &codec_of(rt, alloc, &file), item, want);
}

// A file, a block, an item by its field reference number, and what stands in it.
static ITEMS: [(&str, &str, u32, &str); 7] = [
    // Two occurrences, each with its subitem.
    (
        FILE_N,
        "C8 00 0B 80 02 81 00 11 01 80 22",
        1,
        "02 81 00 11 01 80 22, parts , subitems 1 11||, subitems 8 |22|, content none",
    ),
    (FILE_N, "C8 00 0B 80 02 81 00 11 01 80 22", 2, "no item"),
    // Two parts.
    (
        CAT048_P1,
        "30 00 06 20 A1 00",
        3,
        "A1 00, parts A1|00|, subitems 1 , subitems 8 , content none",
    ),
    // Explicit content of two octets.
    (
        CAT048_P1,
        "30 00 0A 01 01 01 04 03 AA BB",
        27,
        "03 AA BB, parts , subitems 1 , subitems 8 , content AA BB",
    ),
    // Two occurrences after a counter of two octets.
    (
        FILE_W,
        "CE 00 08 80 00 02 AA BB",
        1,
        "00 02 AA BB, parts , subitems 1 ||, subitems 8 ||, content none",
    ),
    // The last part has no FX bit, also where it isn't there.
    (
        FILE_W,
        "CE 00 06 40 0B FF",
        2,
        "0B FF, parts 0B|FF|, subitems 1 , subitems 8 , content none",
    ),
    (
        FILE_W,
        "CE 00 05 40 0A",
        2,
        "0A, parts 0A|, subitems 1 , subitems 8 , content none",
    ),
];

#[test]
fn parts_subitems_and_contents_are_octets_of_their_own(rt: HostRuntime) {
    for &(text, block, frn, want) in &ITEMS {
        item_is_told(&rt, rt.alloc(), text, (block, frn), want);
    }
}
