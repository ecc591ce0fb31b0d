//! A value of one fixed kind as the value of another to which it is converted.
ghost use Rattle.std.specs.Prelude.{◌≡◌, ◌<◌, ◌≤◌, ◌^◌, ℕ, IfSome, IfNone};
ghost use Rattle.ax_format.specs.Plain.{fixed_tree, member_tree, members_tree, value_tree, values_tree};
ghost use Rattle.ax_format.specs.Shape.{FixedShape, MembersShape};
ghost use Rattle.ax_rescale.specs.Converted.{NumberConverted, FixedConverted, MemberConverted, MembersConverted};
ghost use Rattle.ax_rescale.specs.Makes.{IfMade, IfNotMade};
ghost use Rattle.ax_rescale.specs.MemberShapes.{MemberShape};
ghost use Rattle.ax_rescale.specs.Scales.{ContentScaled, FixedScaled, MemberScaled, MembersScaled};

use crate::number::convert_number;
use ax_format::{Content, Fixed, Member, Members, Value, Values};
use std::alloc::{AllocError, Global};

/// The number of an element in the other element.
fn convert_element(
    number: u128,
    width: u32,
    content: &Content,
    own_width: u32,
    own: &Content,
) -> Option<u128>
    requires old { ContentScaled width content.now }
    requires new { ContentScaled own_width own.now }
    requires fits { number < 2 ^ width }
    ensures some { IfSome result (NumberConverted width content.now number own_width own.now) }
    ensures none { IfNone result ((m : ℕ) → NumberConverted width content.now number own_width own.now m → ⊥) }
{
    match (content, own) {
        (Content::Quantity(old), Content::Quantity(new)) => {
            convert_number(number, width, old, own_width, new)
        }
        _ => Some(number),
    }
}

/// The value of the new fixed kind to which a value of the old one is converted: each quantity's number under the new scale, and
/// all else as it was. None comes exactly where there is none: a number isn't whole under the new scale, or doesn't fit its
/// width or its sign, or the kinds differ in their members.
#[cycle(convert_fixed)]
#[tactic(auto, using(crate::proofs::GroupSteps::no_group))]
pub(crate) fn convert_fixed(
    alloc: Global,
    old: &Fixed,
    new: &Fixed,
    value: &Value,
) -> Result<Option<Value>, AllocError>
    requires old { FixedScaled (fixed_tree old.now) }
    requires new { FixedScaled (fixed_tree new.now) }
    requires shape { FixedShape (fixed_tree old.now) (value_tree value.now) }
    ensures some { IfMade value_tree (FixedConverted (fixed_tree old.now) (fixed_tree new.now) (value_tree value.now)) result }
    ensures none { IfNotMade (FixedConverted (fixed_tree old.now) (fixed_tree new.now) (value_tree value.now)) result }
{
    match (old, new, value) {
        (
            Fixed::Element { width, content },
            Fixed::Element {
                width: own_width,
                content: own,
            },
            Value::Number(number),
        ) => Ok(convert_element(*number, *width, content, *own_width, own).map(Value::Number)),
        (Fixed::Group(members), Fixed::Group(own), Value::Group(values)) => {
            let Some(made) = convert_members(alloc, members, own, values)? else {
                return Ok(None);
            };
            Ok(Some(Value::Group(made)))
        }
        _ => Ok(None),
    }
}

#[cycle(convert_fixed)]
fn convert_member(
    alloc: Global,
    old: &Member,
    new: &Member,
    value: &Value,
) -> Result<Option<Value>, AllocError>
    requires old { MemberScaled (member_tree old.now) }
    requires new { MemberScaled (member_tree new.now) }
    requires shape { MemberShape (member_tree old.now) (value_tree value.now) }
    ensures some { IfMade value_tree (MemberConverted (member_tree old.now) (member_tree new.now) (value_tree value.now)) result }
    ensures none { IfNotMade (MemberConverted (member_tree old.now) (member_tree new.now) (value_tree value.now)) result }
{
    match (old, new) {
        (Member::Named { fixed, .. }, Member::Named { fixed: own, .. }) => {
            convert_fixed(alloc, fixed, own, value)
        }
        (Member::Spare { .. }, Member::Spare { .. }) => Ok(Some(value.copy(alloc)?)),
        _ => Ok(None),
    }
}

/// The values of a group in the other group, where each of them is converted.
#[cycle(convert_fixed)]
#[tactic(auto, using(crate::proofs::GroupSteps::members_start))]
fn convert_members(
    alloc: Global,
    old: &Members,
    new: &Members,
    values: &Values,
) -> Result<Option<Values>, AllocError>
    requires old { MembersScaled (members_tree old.now) }
    requires new { MembersScaled (members_tree new.now) }
    requires shape { MembersShape (members_tree old.now) (values_tree values.now) }
    ensures some { IfMade values_tree (MembersConverted (members_tree old.now) (members_tree new.now) (values_tree values.now)) result }
    ensures none { IfNotMade (MembersConverted (members_tree old.now) (members_tree new.now) (values_tree values.now)) result }
{
    let mut made = Values::new(alloc);
    let mut others = new.as_slice();
    let mut rest = values.as_slice();
    for member in old.as_slice() {
        let Some((own, after)) = others.split_first() else {
            return Ok(None);
        };
        let Some((value, later)) = rest.split_first() else {
            return Ok(None);
        };
        let Some(one) = convert_member(alloc, member, own, value)? else {
            return Ok(None);
        };
        made.push(one)?;
        others = after;
        rest = later;
    }
    if others.is_empty() {
        Ok(Some(made))
    } else {
        Ok(None)
    }
}
