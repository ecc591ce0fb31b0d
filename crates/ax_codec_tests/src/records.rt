//! Records and kinds that begin at an octet of a body.
ghost use Rattle.std.specs.Prelude.{◌≤◌, length, IfSome};
ghost use Rattle.ax_model.specs.InBounds.{InBounds};
ghost use Rattle.ax_model.specs.OfCode.{HasNoFlaw};
ghost use Rattle.ax_model.specs.Plain.{kind_tree};
ghost use Rattle.ax_fspec.specs.Reading.{SlotInBounds, slot_of_frn};

use crate::fixtures::{accepted, octets_of, raw, same};
use crate::seeing::read_both_ways;
use crate::shown::{push, push_number, push_record, push_value, shown_error};
use ax_check::Accepted;
use ax_model::{Kind, Spec};
use ax_values::{decode_kind, decode_record};
use ax_vectors::CAT048_P1;
use std::alloc::Global;
use std::process::Abort;

/// The kind of the item of a slot, where that is in bounds.
fn kind_in(spec: &Spec, frn: u32) -> Option<&Kind>
    requires { SlotInBounds (slot_of_frn frn spec.now) }
    ensures { IfSome result (λ kind. InBounds (kind_tree kind.now)) }
{
    let Some(item) = spec.slot(frn) else {
        return None;
    };
    Some(&item.kind)
}

/// The kind of the item of a field reference number.
fn kind_at(spec: &Spec, frn: u32) -> Option<&Kind>
    requires { HasNoFlaw spec.now }
    ensures { IfSome result (λ kind. InBounds (kind_tree kind.now)) }
{
    if frn == 0 || frn > spec.uap.count() {
        return None;
    }
    kind_in(spec, frn)
}

// The octet at which what was read ends.
fn push_end(rt: &impl Abort, text: &mut String, end: u32) {
    push(rt, text, " to ");
    push_number(rt, text, u128::from(end));
}

/// The value of an item that begins at octet `at`, and the octet after it, or the fault.
fn value_at(rt: &impl Abort, alloc: Global, kind: &Kind, body: &[u8], at: u32) -> String
    requires kind { InBounds (kind_tree kind.now) }
    requires body { length body.now ≤ 65532 }
    requires at { at ≤ length body.now }
{
    match decode_kind(alloc, kind, body, at) {
        Ok((value, end)) => {
            let mut text = String::new(alloc);
            push_value(rt, &mut text, &value);
            push_end(rt, &mut text, end);
            text
        }
        Err(error) => shown_error(rt, alloc, &error),
    }
}

/// The record of a body, and the octet after it, or the fault.
fn record_of(rt: &impl Abort, alloc: Global, spec: &Spec, body: &[u8]) -> String
    requires spec { HasNoFlaw spec.now }
    requires body { length body.now ≤ 65532 }
{
    match decode_record(alloc, spec, body, 0) {
        Ok((one, end)) => {
            let mut text = String::new(alloc);
            push_record(rt, &mut text, &one);
            push_end(rt, &mut text, end);
            text
        }
        Err(error) => shown_error(rt, alloc, &error),
    }
}

/// A body, an item by its field reference number and the octet at which it begins, and what the item, the record and the body
/// are read as, with a bar between.
#[derive(Clone, Copy)]
struct Reading {
    body: &'static str,
    frn: u32,
    at: u32,
    want: &'static str,
}

// What the item and the record of a body are read as, with a bar after each.
fn item_and_record(
    rt: &impl Abort,
    alloc: Global,
    file: &Accepted,
    one: &Reading,
    body: &[u8],
) -> String {
    let at = one.at;
    assert!(rt; body.len() <= 65_532);
    assert!(rt; at as usize <= body.len());
    let kind = kind_at(file.spec(), one.frn).expect(rt, "an item");
    let mut text = value_at(rt, alloc, kind, body, at);
    push(rt, &mut text, " | ");
    push(
        rt,
        &mut text,
        record_of(rt, alloc, file.spec(), body).as_str(),
    );
    push(rt, &mut text, " | ");
    text
}

// Asserts what the item, the record and the body are read as.
fn have_one_reading(rt: &impl Abort, alloc: Global, file: &Accepted, one: &Reading) {
    let octets = octets_of(rt, alloc, one.body);
    let raw = raw(rt, 48, &octets);
    let mut text = item_and_record(rt, alloc, file, one, &octets);
    push(
        rt,
        &mut text,
        read_both_ways(rt, alloc, file, &raw, one.body).as_str(),
    );
    same(rt, text.as_str(), one.want, one.body);
}

static READINGS: [Reading; 8] = [
    Reading {
        body: "80 19",
        frn: 1,
        at: 1,
        want: "RunsOut 8 | RunsOut 8 | RunsOut 8",
    },
    Reading {
        body: "20 A1 00",
        frn: 3,
        at: 1,
        want: "<5 0 0 0 0|0 0 0 0 0> to 3 | {3=<5 0 0 0 0|0 0 0 0 0>} to 3 | 48 {3=<5 0 0 0 0|0 0 0 0 0>}",
    },
    Reading {
        body: "20 A1 01",
        frn: 3,
        at: 1,
        want: "ExtensionPastEnd 23 | ExtensionPastEnd 23 | ExtensionPastEnd 23",
    },
    Reading {
        body: "01 01 40 0B 0C",
        frn: 16,
        at: 3,
        want: "[5 6] to 5 | {16=[5 6]} to 5 | 48 {16=[5 6]}",
    },
    Reading {
        body: "01 20 00",
        frn: 10,
        at: 2,
        want: "[] to 3 | {10=[]} to 3 | 48 {10=[]}",
    },
    Reading {
        body: "01 20 01",
        frn: 10,
        at: 2,
        want: "RunsOut 24 | RunsOut 24 | RunsOut 24",
    },
    Reading {
        body: "01 01 01 04 03 AA BB",
        frn: 27,
        at: 4,
        want: "xAA BB to 7 | {27=xAA BB} to 7 | 48 {27=xAA BB}",
    },
    Reading {
        body: "01 01 01 04 00",
        frn: 27,
        at: 4,
        want: "BadExplicitLength 32 | BadExplicitLength 32 | BadExplicitLength 32",
    },
];

fn each_has_one_reading(rt: &impl Abort, alloc: Global, text: &str) {
    let file = accepted(rt, alloc, text);
    for one in &READINGS {
        have_one_reading(rt, alloc, &file, one);
    }
}

#[test]
fn an_item_its_record_and_its_body_have_one_reading(rt: HostRuntime) {
    each_has_one_reading(&rt, rt.alloc(), CAT048_P1);
}
