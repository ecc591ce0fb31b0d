//! Presence fields read from the octets of a body.

ghost use Rattle.std.specs.Prelude.{◌≡◌, ℕ, ◌+◌, ◌-◌, ◌*◌, ◌<◌, ◌≤◌, IfOk, IfErr, OnErr, MatchOption, IfSome, length};
ghost use Rattle.ax_format.specs.Presence.{NoneUndefined, FirstUndefined};
ghost use Rattle.ax_fspec.specs.Marks.{seven, are_marked};
ghost use Rattle.ax_fspec.specs.Fields.{MarksSlots, FailsToMark};
ghost use Rattle.ax_format.specs.Sizes.{longest_body};

use crate::mask::SlotMask;
use crate::set::Presence;
use ax_format::{BodyCause, BodyFault};

/// Reads the presence field that begins at octet `at` of a body, judging each octet bit by bit before the next is looked
/// for. Ok is the octet after it, and `into` is then the set of the slots that it marks, and as before at a fault.
/// RunsOut: a presence octet is missing. UndefinedSlot: a slot is marked that is spare or past the last.
/// PresenceTooLong: FX is set in the last octet that the slots need.
#[inline(always)]
pub fn read_presence(
    mask: &SlotMask,
    body: &[u8],
    at: u32,
    into: &mut Presence,
) -> Result<u32, BodyFault>
    requires body { length body.now ≤ longest_body }
    requires at { at ≤ length body.now }
    ensures ok { IfOk result (λ end. MarksSlots mask.now body.now at end into.new) }
    ensures err { IfErr result (λ fault. FailsToMark mask.now body.now at fault) }
    ensures unchanged { OnErr result (into.new ≡ into.old) }
{
    let mut marked = Presence::empty();
    let mut index = 0;
    while 7 * index < mask.count {
        let place = at + index;
        if place as usize >= body.len() {
            return Err(fault(BodyCause::RunsOut, place, 0));
        }
        let octet = body[place as usize];
        let marks = octet >> 1;
        if let Some(bit) = first_undefined(marks, mask.defined.octet(index)) {
            return Err(fault(BodyCause::UndefinedSlot, place, bit));
        }
        marked.mark_octet(index, marks);
        if octet & 1 == 0 {
            *into = marked;
            return Ok(place + 1);
        }
        index += 1;
    }
    Err(fault(BodyCause::PresenceTooLong, at + index - 1, 7))
}

// The first mark, of the seven low bits, that is set in `marks` and not in `defined`.
#[inline]
fn first_undefined(marks: u8, defined: u8) -> Option<u32>
    requires marks { marks < 128 }
    requires defined { defined < 128 }
    ensures first { MatchOption result (NoneUndefined (are_marked (seven defined)) (seven marks))
        (λ bit. FirstUndefined (are_marked (seven defined)) (seven marks) bit) }
    ensures within { IfSome result (λ bit. bit < 7) }
{
    let undefined = marks & !defined;
    if undefined == 0 {
        None
    } else {
        Some(undefined.leading_zeros() - 1)
    }
}

#[cold]
#[inline(never)]
fn fault(cause: BodyCause, octet: u32, bit: u32) -> BodyFault
    requires { (octet ≤ 65550) × (bit < 8) }
    ensures { result ≡ record { cause = cause; bit = 8 * octet + bit } }
{
    BodyFault {
        cause,
        bit: 8 * octet + bit,
    }
}
