//! Kinds whose units are runs of a known length: fixed kinds, the parts of extended and closed items, occurrences by FX.
ghost use Rattle.std.specs.Prelude.{◌≡◌, ◌+◌, ◌-◌, ◌*◌, ◌%◌, ◌<◌, ◌≤◌, length, map, IfOk, IfErr};
ghost use Rattle.ax_bits.specs.Bits.{bits};
ghost use Rattle.ax_format.specs.InBounds.{InBounds};
ghost use Rattle.ax_format.specs.Plain.{fixed_tree, part_tree, value_tree, values_tree, lists_tree};
ghost use Rattle.ax_format.specs.Sizes.{longest_body};
ghost use Rattle.ax_format.specs.Tree as Tree;
ghost use Rattle.ax_format.specs.declared.fault.BodyCause.TheVariants as Cause;
ghost use Rattle.ax_fspec.specs.Reading.{kind_read};
ghost use Rattle.ax_values.specs.SlotReading.{HasFailed, IsValueRead};

use crate::error::DecodeError;
use crate::fixed::{decode_fixed, decode_members};
use crate::parts_left::PartsLeft;
use ax_format::{BodyCause, BodyFault, Fixed, LastPart, Lists, Parts, Value, Values};
use ax_fspec::{has_fx, run_end};
use std::alloc::Global;

/// The octet after a unit of `width` bits, whole octets, that begins at octet `at`. RunsOut at its first bit where it
/// doesn't fit.
pub fn unit_end(body: &[u8], at: u32, width: u32) -> Result<u32, BodyFault>
    requires width { (width % 8 ≡ 0) × (width ≤ 524264) }
    requires body { length body.now ≤ longest_body }
    requires at { at ≤ length body.now }
    ensures ok { IfOk result (λ end. (at ≤ end) × (end ≤ length body.now) × (width ≡ 8 * (end - at))) }
    ensures short { IfErr result (λ fault. 8 * (length body.now - at) < width) }
    ensures fault { IfErr result (λ fault. fault ≡ record { cause = Cause.RunsOut; bit = 8 * at }) }
{
    match run_end(body, at, width) {
        Some(end) => Ok(end),
        None => Err(BodyFault {
            cause: BodyCause::RunsOut,
            bit: 8 * at,
        }),
    }
}

/// The value of a fixed kind that stands by itself, and the octet after it.
#[tactic(auto, using(crate::proofs::Continuing::errors, ax_fspec::proofs::AtOctets::fixed_fails))]
pub(crate) fn decode_single(
    alloc: Global,
    fixed: &Fixed,
    body: &[u8],
    at: u32,
) -> Result<(Value, u32), DecodeError>
    requires bounds { InBounds (Tree.fixed (fixed_tree fixed.now)) }
    requires body { length body.now ≤ longest_body }
    requires at { at ≤ length body.now }
    ensures ok { IfOk result (λ r. IsValueRead (Tree.fixed (fixed_tree fixed.now)) body.now at r.1 (value_tree r.0)) }
    ensures err { IfErr result (λ e. HasFailed (kind_read (Tree.fixed (fixed_tree fixed.now)) body.now at) at e) }
{
    let end = unit_end(body, at, fixed.width() as u32)?;
    let mut bit = 8 * at;
    let value = decode_fixed(alloc, fixed, body, &mut bit)?;
    Ok((value, end))
}

/// The values of the parts that are present, and the octet after them.
#[tactic(auto, using(crate::proofs::Continuing::errors, ax_fspec::proofs::AtOctets::extended_fails))]
pub(crate) fn decode_parts(
    alloc: Global,
    last: LastPart,
    parts: &Parts,
    body: &[u8],
    at: u32,
) -> Result<(Lists, u32), DecodeError>
    requires bounds { InBounds (Tree.extended last (map part_tree parts.now)) }
    requires body { length body.now ≤ longest_body }
    requires at { at ≤ length body.now }
    ensures ok { IfOk result (λ r. IsValueRead (Tree.extended last (map part_tree parts.now)) body.now at r.1 (Tree.part_values (lists_tree r.0))) }
    ensures err { IfErr result (λ e. HasFailed (kind_read (Tree.extended last (map part_tree parts.now)) body.now at) at e) }
{
    let mut left = PartsLeft::of(last, parts.as_slice(), body, at);
    let mut made = Lists::new(alloc);
    while let Some((part, first)) = left.next()? {
        let mut bit = first;
        let values = decode_members(alloc, &part.members, body, &mut bit)?;
        made.push(values)?;
    }
    Ok((made, left.at))
}

/// The values of occurrences by FX, and the octet after them.
#[tactic(auto, using(crate::proofs::Continuing::errors, crate::proofs::Repeating::run_none))]
pub(crate) fn decode_run(
    alloc: Global,
    fixed: &Fixed,
    body: &[u8],
    at: u32,
) -> Result<(Values, u32), DecodeError>
    requires bounds { InBounds (Tree.by_fx (fixed_tree fixed.now)) }
    requires body { length body.now ≤ longest_body }
    requires at { at ≤ length body.now }
    ensures ok { IfOk result (λ r. IsValueRead (Tree.by_fx (fixed_tree fixed.now)) body.now at r.1 (Tree.occurrences (values_tree r.0))) }
    ensures err { IfErr result (λ e. HasFailed (kind_read (Tree.by_fx (fixed_tree fixed.now)) body.now at) at e) }
{
    let width = fixed.width() as u32;
    let mut made = Values::new(alloc);
    let mut here = at;
    loop {
        let end = unit_end(body, here, width + 1)?;
        let mut bit = 8 * here;
        let value = decode_fixed(alloc, fixed, body, &mut bit)?;
        made.push(value)?;
        if !has_fx(body, bit) {
            return Ok((made, end));
        }
        here = end;
    }
}
