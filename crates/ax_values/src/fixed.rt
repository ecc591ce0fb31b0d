//! Runs of bits of a known length: elements, spares and groups.
ghost use Rattle.std.specs.Prelude.{◌≡◌, ◌+◌, ◌*◌, ◌<◌, ◌≤◌, length, drop, take, IfOk, OnOk};
ghost use Rattle.ax_bits.specs.Bits.{bits, number_of};
ghost use Rattle.ax_format.specs.Reader.{fixed_value, members_value};
ghost use Rattle.ax_format.specs.InBounds.{IsWidth, FixedInBounds, MembersInBounds};
ghost use Rattle.ax_format.specs.Plain.{fixed_tree, member_tree, members_tree, value_tree, values_tree};
ghost use Rattle.ax_format.specs.Sizes.{longest_body};
ghost use Rattle.ax_format.specs.Tree.{number};
ghost use Rattle.ax_format.specs.Widths.{width, members_width};
ghost use Rattle.ax_values.specs.Members.{member_alone, IsMemberValue};

use ax_bits::bits_at;
use ax_format::{Fixed, Member, Members, Value, Values};
use std::alloc::{AllocError, Global};

/// The number in the `width` bits from bit `at` of the body on, which is moved after them.
fn decode_number(body: &[u8], at: &mut u32, width: u32) -> u128
    requires width { IsWidth width }
    requires within { at.old + width ≤ 8 * length body.now }
    requires body { length body.now ≤ longest_body }
    ensures value { number result ≡ number (number_of (take width (drop at.old (bits body.now)))) }
    ensures at { at.new ≡ at.old + width }
{
    let number = bits_at(body, *at, width);
    *at += width;
    number
}

/// The value in the bits from bit `at` of the body on, which is moved after them.
#[cycle(fixed)]
pub(crate) fn decode_fixed(
    alloc: Global,
    fixed: &Fixed,
    body: &[u8],
    at: &mut u32,
) -> Result<Value, AllocError>
    requires bounds { FixedInBounds (fixed_tree fixed.now) }
    requires within { at.old + width (fixed_tree fixed.now) ≤ 8 * length body.now }
    requires body { length body.now ≤ longest_body }
    ensures value { IfOk result (λ value. value_tree value ≡ fixed_value (fixed_tree fixed.now) (drop at.old (bits body.now))) }
    ensures at { OnOk result (at.new ≡ at.old + width (fixed_tree fixed.now)) }
{
    match fixed {
        Fixed::Element { width, .. } => Ok(Value::Number(decode_number(body, at, *width))),
        Fixed::Group(members) => {
            let values = decode_members(alloc, members, body, at)?;
            Ok(Value::Group(values))
        }
    }
}

/// The values of members, one for each.
#[cycle(fixed)]
#[tactic(auto, using(crate::proofs::FixedRead::members))]
pub(crate) fn decode_members(
    alloc: Global,
    members: &Members,
    body: &[u8],
    at: &mut u32,
) -> Result<Values, AllocError>
    requires bounds { MembersInBounds (members_tree members.now) }
    requires within { at.old + members_width (members_tree members.now) ≤ 8 * length body.now }
    requires body { length body.now ≤ longest_body }
    ensures values { IfOk result (λ values. values_tree values ≡ members_value (members_tree members.now) (drop at.old (bits body.now))) }
    ensures at { OnOk result (at.new ≡ at.old + members_width (members_tree members.now)) }
{
    let mut made = Values::new(alloc);
    for member in members.as_slice() {
        let value = decode_member(alloc, member, body, at)?;
        made.push(value)?;
    }
    Ok(made)
}

#[cycle(fixed)]
fn decode_member(
    alloc: Global,
    member: &Member,
    body: &[u8],
    at: &mut u32,
) -> Result<Value, AllocError>
    requires bounds { MembersInBounds (member_alone (member_tree member.now)) }
    requires within { at.old + members_width (member_alone (member_tree member.now)) ≤ 8 * length body.now }
    requires body { length body.now ≤ longest_body }
    ensures value { IfOk result (λ value. IsMemberValue (member_tree member.now) (drop at.old (bits body.now)) (value_tree value)) }
    ensures at { OnOk result (at.new ≡ at.old + members_width (member_alone (member_tree member.now))) }
{
    match member {
        Member::Named { fixed, .. } => decode_fixed(alloc, fixed, body, at),
        Member::Spare { width } => Ok(Value::Number(decode_number(body, at, *width))),
    }
}
