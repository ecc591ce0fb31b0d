//! Presence fields that are read and written, and sets of slots.
ghost use Rattle.std.specs.Prelude.{◌≡◌, ◌≤◌};

use crate::checks::same_octets;
use ax_bits::Out;
use ax_fspec::{Presence, SlotMask, read_presence, write_presence};
use ax_model::{BodyCause, BodyFault};
use std::process::Abort;

// All slots up to the count, but for one that is spare.
fn mask(count: u32, spare: u32) -> SlotMask
    requires { (1 ≤ count) × (count ≤ 126) }
{
    let mut defined = Presence::empty();
    for slot in 1..count + 1 {
        if slot != spare {
            defined.mark(slot);
        }
    }
    SlotMask { count, defined }
}

/// The set of these slots.
fn set_of(rt: &impl Abort, slots: &[u32]) -> Presence {
    let mut set = Presence::empty();
    for slot in slots {
        assert!(rt; 1 <= *slot && *slot <= 126);
        set.mark(*slot);
    }
    set
}

// Whether a set has exactly these slots, which are ascending.
fn is_set(set: &Presence, slots: &[u32]) -> bool {
    let mut left = *set;
    for slot in slots {
        if left.take_first() != Some(*slot) {
            return false;
        }
    }
    left.take_first().is_none()
}

// The count of a mask's slots and its spare one, a body, where the field begins, and the slots that it marks.
type Field<'a> = (u32, u32, &'a [u8], u32, &'a [u32]);

// The same, with the fault's cause and bit.
type Fault<'a> = (u32, u32, &'a [u8], u32, BodyCause, u32);

// A field of eighteen octets that marks slot 126 alone.
const LAST_SLOT: [u8; 18] = [1, 1, 1, 1, 1, 1, 1, 1, 1, 1, 1, 1, 1, 1, 1, 1, 1, 2];

const FIELDS: [Field<'static>; 8] = [
    (7, 0, &[0xa0], 0, &[1, 3]),
    (7, 0, &[0xaa, 0x00], 1, &[]),
    (1, 0, &[0x80, 0xff], 0, &[1]),
    (14, 0, &[0x03, 0x02], 0, &[7, 14]),
    (14, 2, &[0x01, 0x00], 0, &[]),
    (28, 0, &[0x81, 0x01, 0x01, 0x00], 0, &[1]),
    (126, 0, &LAST_SLOT, 0, &[126]),
    (64, 0, &[1, 1, 1, 1, 1, 1, 1, 1, 3, 0x80], 0, &[63, 64]),
];

/// Asserts that the field marks its slots, and no slot that was in the set before.
fn is_read(rt: &impl Abort, (count, spare, body, at, slots): Field<'_>) {
    assert!(rt; 1 <= count && count <= 126 && body.len() <= 65532 && at as usize <= body.len());
    let mut into = set_of(rt, &[5]);
    let end = read_presence(&mask(count, spare), body, at, &mut into);
    assert!(rt; end.is_ok() && is_set(&into, slots), "{count} slots");
}

#[test]
fn reads_fields(rt: HostRuntime) {
    for &field in &FIELDS {
        is_read(&rt, field);
    }
}

const FAULTS: [Fault<'static>; 13] = [
    (1, 0, &[0x81], 0, BodyCause::PresenceTooLong, 7),
    (7, 0, &[0x03, 0x00], 0, BodyCause::PresenceTooLong, 7),
    (8, 0, &[0x81, 0x81], 0, BodyCause::PresenceTooLong, 15),
    (
        14,
        0,
        &[0x01, 0x03, 0x00],
        0,
        BodyCause::PresenceTooLong,
        15,
    ),
    (
        28,
        0,
        &[0x01, 0x01, 0x01, 0x01],
        0,
        BodyCause::PresenceTooLong,
        31,
    ),
    (126, 0, &[1; 18], 0, BodyCause::PresenceTooLong, 143),
    (1, 0, &[0x40], 0, BodyCause::UndefinedSlot, 1),
    (8, 0, &[0x01, 0x40], 0, BodyCause::UndefinedSlot, 9),
    (7, 4, &[0x55, 0x10], 1, BodyCause::UndefinedSlot, 11),
    (8, 2, &[0x41], 0, BodyCause::UndefinedSlot, 1),
    (1, 0, &[0x41], 0, BodyCause::UndefinedSlot, 1),
    (14, 0, &[0x81], 0, BodyCause::RunsOut, 8),
    (7, 0, &[0xff], 1, BodyCause::RunsOut, 8),
];

/// Asserts that the field has its fault, and changes no set.
fn is_refused(rt: &impl Abort, (count, spare, body, at, cause, bit): Fault<'_>) {
    assert!(rt; 1 <= count && count <= 126 && body.len() <= 65532 && at as usize <= body.len());
    let mut into = set_of(rt, &[5, 77]);
    let end = read_presence(&mask(count, spare), body, at, &mut into);
    let refused = end == Err(BodyFault { cause, bit });
    assert!(rt;
        refused && is_set(&into, &[5, 77]),
        "{count} slots: {end:?}"
    );
}

#[test]
fn refuses_fields_at_their_bit(rt: HostRuntime) {
    for &fault in &FAULTS {
        is_refused(&rt, fault);
    }
}

// The slots of a set, and its least field.
const LEAST: [(&[u32], &[u8]); 7] = [
    (&[], &[0x00]),
    (&[1], &[0x80]),
    (&[7], &[0x02]),
    (&[8], &[0x01, 0x80]),
    (&[1, 14], &[0x81, 0x02]),
    (&[63], &[1, 1, 1, 1, 1, 1, 1, 1, 0x02]),
    (
        &[3, 64, 126],
        &[
            0x21, 1, 1, 1, 1, 1, 1, 1, 1, 0x81, 1, 1, 1, 1, 1, 1, 1, 0x02,
        ],
    ),
];

/// Asserts that the least field of these slots has those octets.
fn is_written(rt: &impl Abort, slots: &[u32], octets: &[u8]) {
    let marked = set_of(rt, slots);
    let mut buffer = [0; 18];
    same_octets(rt, field_in(&marked, &mut buffer), octets, "a least field");
}

#[test]
fn keeps_the_common_slots(rt: HostRuntime) {
    let set = set_of(&rt, &[3, 63, 64, 126]);
    let other = set_of(&rt, &[2, 63, 126]);
    assert!(rt; is_set(&set.common(&other), &[63, 126]));
}

#[test]
fn writes_least_fields(rt: HostRuntime) {
    for &(slots, octets) in &LEAST {
        is_written(&rt, slots, octets);
    }
}

// The octets of the least field of a set.
#[tactic(auto, using(ax_fspec::proofs::FieldLaws::least_sizes))]
fn field_in<'b>(marked: &Presence, buffer: &'b mut [u8; 18]) -> &'b [u8] {
    let count = {
        let mut out = Out::over(buffer);
        write_presence(marked, &mut out);
        out.octets().len()
    };
    &buffer[..count]
}

/// Asserts that the set has that slot where these slots are marked.
fn has_where_marked(rt: &impl Abort, set: &Presence, slots: &[u32], slot: u32) {
    assert!(rt; set.has(slot) == slots.contains(&slot), "slot {slot}");
}

/// The last slot of a set.
fn last_of(set: &Presence) -> u32 {
    let mut last = 0;
    for slot in set.slots() {
        last = slot;
    }
    last
}

#[test]
fn has_the_marked_slots_alone(rt: HostRuntime) {
    let slots = [1, 63, 64, 126];
    let set = set_of(&rt, &slots);
    for slot in 0..200 {
        has_where_marked(&rt, &set, &slots, slot);
    }
    assert!(rt; last_of(&set) == 126 && is_set(&set, &slots));
}
