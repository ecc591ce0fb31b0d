//! Presence fields over slots, of which no more are looked at than the field has room for.
ghost use Rattle.std.specs.Prelude.{◌≡◌, ◌≤◌, length, map, IfOk, IfErr};
ghost use Rattle.ax_format.specs.Plain.{slot_tree};
ghost use Rattle.ax_format.specs.Sizes.{longest_body};
ghost use Rattle.ax_format.specs.Tree.{SlotTree};
ghost use Rattle.ax_fspec.specs.Reading.{IsMaskOf, is_subitem};
ghost use Rattle.ax_held_kinds.specs.Fields.{MarksOf, FailsToMarkOf};
ghost use Rattle.ax_held_kinds.specs.Held.{held_slot};

use crate::kinds::HeldSlot;
use ax_format::{BodyFault, Slot};
use ax_fspec::{Presence, SlotMask, read_presence};

/// A slot, as a presence field sees it.
pub trait PresenceSlot {
    // The slot.
    ghost tree: { Self → SlotTree };

    /// Whether it is a subitem's.
    fn is_sub(&self) -> bool
        ensures { result ≡ is_subitem (tree self.now) };
}

impl PresenceSlot for Slot {
    ghost tree = { λ slot. slot_tree slot };

    fn is_sub(&self) -> bool {
        match self {
            Slot::Spare => false,
            Slot::Sub { .. } => true,
        }
    }
}

impl<'s> PresenceSlot for HeldSlot<'s> {
    ghost tree = { λ slot. held_slot slot };

    fn is_sub(&self) -> bool {
        match self {
            HeldSlot::Spare => false,
            HeldSlot::Sub { .. } => true,
        }
    }
}

/// The mask of slots, of which there are 1 to 126.
fn mask_of<S: PresenceSlot>(slots: &[S]) -> SlotMask
    requires { (1 ≤ length slots.now) × (length slots.now ≤ 126) }
    ensures { IsMaskOf (map S.tree slots.now) result }
{
    let mut defined = Presence::empty();
    let mut number = 0;
    for slot in slots {
        number += 1;
        if slot.is_sub() {
            defined.mark(number);
        }
    }
    SlotMask {
        count: slots.len() as u32,
        defined,
    }
}

/// How many octets the presence field that begins at octet `at` has, by their FX bits: 1 to 18.
fn field_octets(body: &[u8], at: u32) -> usize
    requires { at ≤ length body.now }
    ensures { (1 ≤ result) × (result ≤ 18) }
{
    let mut octets = 1;
    for octet in &body[at as usize..] {
        if octets == 18 || *octet & 1 == 0 {
            break;
        }
        octets += 1;
    }
    octets
}

/// Reads the presence field over these slots that begins at octet `at` of a body, as `read_presence` does under their mask.
/// Seven slots are looked at for each octet of a sound field, and all of them at a fault.
pub fn read_field<S: PresenceSlot>(
    slots: &[S],
    body: &[u8],
    at: u32,
    into: &mut Presence,
) -> Result<u32, BodyFault>
    requires slots { (1 ≤ length slots.now) × (length slots.now ≤ 126) }
    requires body { length body.now ≤ longest_body }
    requires at { at ≤ length body.now }
    ensures ok { IfOk result (λ end. MarksOf (map S.tree slots.now) body.now at end into.new) }
    ensures err { IfErr result (λ fault. FailsToMarkOf (map S.tree slots.now) body.now at fault) }
{
    let front = slots.len().min(7 * field_octets(body, at));
    if let Ok(end) = read_presence(&mask_of(&slots[..front]), body, at, into) {
        return Ok(end);
    }
    match read_presence(&mask_of(slots), body, at, into) {
        Ok(end) => Ok(end),
        Err(fault) => Err(fault),
    }
}
