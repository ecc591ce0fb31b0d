//! Records over a specification, and bodies of them.
ghost use Rattle.std.specs.Prelude.{◌≡◌, ◌+◌, ◌-◌, ◌<◌, ◌≤◌, length, drop, IfOk, IfErr};
ghost use Rattle.ax_bits.specs.Bits.{AreBits};
ghost use Rattle.ax_format.specs.Flaws.{NoFlaw};
ghost use Rattle.ax_format.specs.Plain.{spec_tree, entries_tree, record_tree};
ghost use Rattle.ax_format.specs.Sizes.{longest_body};
ghost use Rattle.ax_format.specs.Specification.{record_slots, record_kind};
ghost use Rattle.ax_format.specs.Tree.{marked};
ghost use Rattle.ax_fspec.specs.Reading.{Gets, IsMaskOf, SlotInBounds, is_subitem, record_slot_list, slot_of_frn, kind_read, entries_at};
ghost use Rattle.ax_values.specs.SlotReading.{HasFailed, IsSlotRead, HasSlotFailed, IsValueRead};

use crate::error::DecodeError;
use crate::kinds::{BodyAt, decode_value};
use ax_format::{Entries, Entry, Record, Spec};
use ax_fspec::{Presence, SlotMask, read_presence};
use std::alloc::Global;

/// Whether the field reference number has an item.
fn has_item(spec: &Spec, frn: u32) -> bool
    ensures { result ≡ is_subitem (slot_of_frn frn spec.now) }
{
    spec.slot(frn).is_some()
}

/// The mask of the slots of the UAP, of which there are 1 to 126.
pub fn record_mask(spec: &Spec) -> SlotMask
    requires { (1 ≤ length spec.now.uap) × (length spec.now.uap ≤ 126) }
    ensures { IsMaskOf (record_slot_list (spec_tree spec.now)) result }
{
    let mut defined = Presence::empty();
    for index in 0..spec.uap.count() {
        if has_item(spec, index + 1) {
            defined.mark(index + 1);
        }
    }
    SlotMask {
        count: spec.uap.count(),
        defined,
    }
}

/// The record that begins at octet `at` of the body, and the octet after it, by the mask of the UAP.
pub(crate) fn decode_entries(
    alloc: Global,
    spec: &Spec,
    mask: &SlotMask,
    body: &[u8],
    at: u32,
) -> Result<(Record, u32), DecodeError>
    requires spec { NoFlaw (spec_tree spec.now) }
    requires mask { IsMaskOf (record_slot_list (spec_tree spec.now)) mask.now }
    requires body { length body.now ≤ longest_body }
    requires at { at ≤ length body.now }
    ensures ok { IfOk result (λ r. IsValueRead (record_kind (spec_tree spec.now)) body.now at r.1 (marked (record_tree r.0))) }
    ensures err { IfErr result (λ e. HasFailed (kind_read (record_kind (spec_tree spec.now)) body.now at) at e) }
{
    let mut marked = Presence::empty();
    let here = read_presence(mask, body, at, &mut marked)?;
    let (entries, end) = decode_marked(alloc, spec, &marked, body, here)?;
    Ok((Record { entries }, end))
}

/// The entries of the marked field reference numbers, of which the first begins at octet `at`, and the octet after
/// them.
fn decode_marked(
    alloc: Global,
    spec: &Spec,
    marked: &Presence,
    body: &[u8],
    at: u32,
) -> Result<(Entries, u32), DecodeError>
    requires spec { NoFlaw (spec_tree spec.now) }
    requires marks { AreBits marked.now }
    requires body { length body.now ≤ longest_body }
    requires at { at ≤ length body.now }
    ensures ok { IfOk result (λ r. Gets (entries_at (record_slots (spec_tree spec.now)) marked.now body.now at) body.now at r.1 (entries_tree r.0)) }
    ensures err { IfErr result (λ e. HasFailed (entries_at (record_slots (spec_tree spec.now)) marked.now body.now at) at e) }
{
    let mut made = Entries::new(alloc);
    let mut here = at;
    for index in 0..spec.uap.count() {
        if marked.has(index + 1) {
            let from = BodyAt { body, at: here };
            here = decode_item(alloc, spec, index + 1, from, &mut made)?;
        }
    }
    Ok((made, here))
}

/// Puts the entry of a field reference number after the others. Ok is the octet after it.
fn decode_item(
    alloc: Global,
    spec: &Spec,
    frn: u32,
    from: BodyAt<'_>,
    into: &mut Entries,
) -> Result<u32, DecodeError>
    requires bounds { SlotInBounds (slot_of_frn frn spec.now) }
    requires body { length from.body.now ≤ longest_body }
    requires at { from.at ≤ length from.body.now }
    requires room { length into.old < 126 }
    ensures ok { IfOk result (λ end. IsSlotRead (slot_of_frn frn spec.now) frn from.entry.body.now from.entry.at end into.old into.new) }
    ensures err { IfErr result (λ e. HasSlotFailed (slot_of_frn frn spec.now) from.entry.body.now from.entry.at e) }
{
    let Some(item) = spec.slot(frn) else {
        return Ok(from.at);
    };
    let (value, end) = decode_value(alloc, &item.kind, from.body, from.at)?;
    into.push(Entry { slot: frn, value })?;
    Ok(end)
}
