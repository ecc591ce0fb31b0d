//! Octets to values, records and blocks.
ghost use Rattle.std.specs.Prelude.{◌≡◌, ℕ, ◌<◌, ◌≤◌, length, IfOk, IfErr};
ghost use Rattle.ax_bits.specs.Bits.{bits};
ghost use Rattle.ax_format.specs.Bodies.{SpellsBody};
ghost use Rattle.ax_format.specs.Flaws.{NoFlaw};
ghost use Rattle.ax_format.specs.InBounds.{InBounds};
ghost use Rattle.ax_format.specs.Plain.{kind_tree, value_tree, spec_tree, record_tree, records_tree};
ghost use Rattle.ax_format.specs.Sizes.{longest_body};
ghost use Rattle.ax_format.specs.Tree.{ValueTree, EntriesTree};
ghost use Rattle.ax_format.specs.declared.fault.BodyFault.{BodyFault};
ghost use Rattle.ax_fspec.specs.Honest.{SpellRecords, BeginWithValue, BeginWithRecord, IsHonest, IsHonestAt};
ghost use Rattle.ax_fspec.specs.Reading.{IsSpelledAt, IsFaultAt, IsMaskOf, record_slot_list};
ghost use Rattle.ax_values.specs.Decoding.{IsRecordAt, IsRecordFaultAt, IsBodyFault, AnswersFault, IsFaultOf, AnswersValue, AnswersRecord, AnswersOther, AnswersSpelled, AnswersFaulty, IsDecoded};

use crate::error::DecodeError;
use crate::kinds::decode_value;
use crate::records::{decode_entries, record_mask};
use ax_format::{Block, Kind, Octets, RawBlock, Record, Records, Spec, Value};
use ax_fspec::SlotMask;
use std::alloc::Global;

/// Reads the value of a kind that begins at octet `at` of a body. The kind is one of a specification without flaw: an
/// item's, a subitem's or a counted or wide body's. Ok is the value and the octet after it; the octets between are
/// exactly a spelling of it. Fault is the first fault of what is left of the body, and its bit is one of the body. There is one
/// answer: where such octets stand there, it is that value, and where what is left fails, it is that fault.
///
/// The fault can be trusted. It is RunsOut exactly where more octets, put after the body, can make what is left begin with
/// a spelling. With any other cause, no bits that begin with those of what is left through the named one begin with a
/// spelling; for BadExplicitLength that is said of the bits through the whole octet. And for every cause, the bits before
/// the named one begin some spelling: none of them tells a fault.
pub fn decode_kind(
    alloc: Global,
    kind: &Kind,
    body: &[u8],
    at: u32,
) -> Result<(Value, u32), DecodeError>
    requires kind { InBounds (kind_tree kind.now) }
    requires body { length body.now ≤ longest_body }
    requires at { at ≤ length body.now }
    ensures value { IfOk result (λ r. IsSpelledAt (kind_tree kind.now) body.now at r.1 (value_tree r.0)) }
    ensures fault { IfErr result (IsFaultOf (IsFaultAt (kind_tree kind.now) body.now at)) }
    ensures honest { IfErr result (IsFaultOf (IsHonestAt (BeginWithValue (kind_tree kind.now)) body.now at)) }
    ensures where_spelled { (v : ValueTree) (end : ℕ) → IsSpelledAt (kind_tree kind.now) body.now at end v → AnswersValue v end result }
    ensures where_faulty { (fault : BodyFault) → IsFaultAt (kind_tree kind.now) body.now at fault → AnswersFault fault result }
{
    decode_value(alloc, kind, body, at)
}

/// Reads the record that begins at octet `at` of a body, over a specification without flaw. Ok is the record and the
/// octet after it; the octets between are exactly a spelling of it. Fault is the first fault of what is left of the
/// body, and its bit is one of the body. There is one answer, as for a kind, and the fault can be trusted in the same way.
pub fn decode_record(
    alloc: Global,
    spec: &Spec,
    body: &[u8],
    at: u32,
) -> Result<(Record, u32), DecodeError>
    requires spec { NoFlaw (spec_tree spec.now) }
    requires body { length body.now ≤ longest_body }
    requires at { at ≤ length body.now }
    ensures record { IfOk result (λ r. IsRecordAt (spec_tree spec.now) body.now at r.1 (record_tree r.0)) }
    ensures fault { IfErr result (IsFaultOf (IsRecordFaultAt (spec_tree spec.now) body.now at)) }
    ensures honest { IfErr result (IsFaultOf (IsHonestAt (BeginWithRecord (spec_tree spec.now)) body.now at)) }
    ensures where_spelled { (es : EntriesTree) (end : ℕ) → IsRecordAt (spec_tree spec.now) body.now at end es → AnswersRecord es end result }
    ensures where_faulty { (fault : BodyFault) → IsRecordFaultAt (spec_tree spec.now) body.now at fault → AnswersFault fault result }
{
    decode_masked(alloc, spec, &record_mask(spec), body, at)
}

/// Reads a block over a specification without flaw. A block of another category is opaque, whatever its octets. A block
/// of the specification's category has the records that its body spells, or the body's first fault, with its bit in the
/// body. There is one answer: where the body spells records, it is these, and where the body fails, it is that fault.
///
/// The fault can be trusted. It is RunsOut exactly where more octets, put after the body, can make it spell records. With
/// any other cause, no bits that begin with those of the body through the named one spell records; for BadExplicitLength
/// that is said of the bits through the whole octet. And for every cause, the bits before the named one begin some bits
/// that spell records: none of them tells a fault.
pub fn decode_block(alloc: Global, spec: &Spec, raw: &RawBlock<'_>) -> Result<Block, DecodeError>
    requires spec { NoFlaw (spec_tree spec.now) }
    ensures opaque { AnswersOther spec.now raw.now.category raw.now.body.now result }
    ensures read { raw.now.category ≡ spec.now.category → IfOk result (IsDecoded spec.now raw.now.category raw.now.body.now) }
    ensures fault { IfErr result (IsFaultOf (λ fault. (raw.now.category ≡ spec.now.category) × IsBodyFault (spec_tree spec.now) raw.now.body.now fault)) }
    ensures honest { IfErr result (IsFaultOf (λ fault. IsHonest (SpellRecords (spec_tree spec.now)) raw.now.body.now fault.bit fault.cause)) }
    ensures where_spelled { AnswersSpelled spec.now raw.now.category raw.now.body.now result }
    ensures where_faulty { AnswersFaulty spec.now raw.now.category raw.now.body.now result }
{
    if raw.category != spec.category {
        let octets = Octets::of(alloc, raw.body)?;
        return Ok(Block::Opaque {
            category: raw.category,
            octets,
        });
    }
    let records = decode_body(alloc, spec, raw.body)?;
    Ok(Block::Read {
        category: raw.category,
        records,
    })
}

/// The records of a body.
fn decode_body(alloc: Global, spec: &Spec, body: &[u8]) -> Result<Records, DecodeError>
    requires spec { NoFlaw (spec_tree spec.now) }
    requires body { length body.now ≤ longest_body }
    requires some { 1 ≤ length body.now }
    ensures records { IfOk result (λ records. SpellsBody (spec_tree spec.now) (records_tree records) (bits body.now)) }
    ensures fault { IfErr result (IsFaultOf (IsBodyFault (spec_tree spec.now) body.now)) }
{
    let mask = record_mask(spec);
    let mut made = Records::new(alloc);
    let mut at = 0;
    while (at as usize) < body.len() {
        let (record, end) = decode_masked(alloc, spec, &mask, body, at)?;
        made.push(record)?;
        at = end;
    }
    Ok(made)
}

/// The record that begins at octet `at` of the body, and the octet after it, by the mask of the UAP.
fn decode_masked(
    alloc: Global,
    spec: &Spec,
    mask: &SlotMask,
    body: &[u8],
    at: u32,
) -> Result<(Record, u32), DecodeError>
    requires spec { NoFlaw (spec_tree spec.now) }
    requires mask { IsMaskOf (record_slot_list (spec_tree spec.now)) mask.now }
    requires body { length body.now ≤ longest_body }
    requires at { at ≤ length body.now }
    ensures record { IfOk result (λ r. IsRecordAt (spec_tree spec.now) body.now at r.1 (record_tree r.0)) }
    ensures fault { IfErr result (IsFaultOf (IsRecordFaultAt (spec_tree spec.now) body.now at)) }
    ensures where_spelled { (es : EntriesTree) (end : ℕ) → IsRecordAt (spec_tree spec.now) body.now at end es → AnswersRecord es end result }
    ensures where_faulty { (fault : BodyFault) → IsRecordFaultAt (spec_tree spec.now) body.now at fault → AnswersFault fault result }
{
    decode_entries(alloc, spec, mask, body, at)
}
