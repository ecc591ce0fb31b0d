//! Values of fixed kinds: elements, groups and their members.
ghost use Rattle.std.specs.Prelude.{◌≡◌, ◌<◌, length, OnOk};
ghost use Rattle.ax_format.specs.Plain.{fixed_tree, member_tree, members_tree, value_tree, values_tree};
ghost use Rattle.ax_format.specs.Shape.{FixedShape, MembersShape};
ghost use Rattle.ax_text_form.specs.Readable.{FixedReadable, MemberReadable, MembersReadable};
ghost use Rattle.ax_text_form.specs.Slots.{MemberShape};
ghost use Rattle.ax_block_reader.specs.Continuing.{Gives};
ghost use Rattle.ax_block_reader.specs.Languages.{fixed_texts, member_texts, members_texts};

use crate::numbers::number;
use ax_format::{Fixed, Member, Members, Value, Values};
use ax_tokens::{Reader, Stopped};
use std::alloc::Global;

/// A value of a fixed kind: a number, or members in braces.
#[cycle(fixed_value)]
#[tactic(auto, using(crate::proofs::FixedWays::fixed_ways))]
pub(crate) fn fixed_value(
    alloc: Global,
    reader: &mut Reader<'_, '_>,
    fixed: &Fixed,
) -> Result<Value, Stopped>
    requires { FixedReadable (fixed_tree fixed.now) }
    ensures gives { Gives value_tree (FixedShape (fixed_tree fixed.now)) (fixed_texts (fixed_tree fixed.now)) result reader.old reader.new }
    ensures moves { OnOk result (length reader.new < length reader.old) }
{
    match fixed {
        Fixed::Element { width, .. } => {
            let number = number(reader, *width)?;
            Ok(Value::Number(number))
        }
        Fixed::Group(members) => {
            reader.expect(b"{")?;
            let values = member_values(alloc, reader, members)?;
            Ok(Value::Group(values))
        }
    }
}

/// A member: its name and its value, or `spare` and its number.
#[cycle(fixed_value)]
#[tactic(auto, using(crate::proofs::FixedWays::member_ways))]
fn member_value(
    alloc: Global,
    reader: &mut Reader<'_, '_>,
    member: &Member,
) -> Result<Value, Stopped>
    requires { MemberReadable (member_tree member.now) }
    ensures gives { Gives value_tree (MemberShape (member_tree member.now)) (member_texts (member_tree member.now)) result reader.old reader.new }
    ensures moves { OnOk result (length reader.new < length reader.old) }
{
    match member {
        Member::Named { name, fixed } => {
            reader.expect(name.octets())?;
            let value = fixed_value(alloc, reader, fixed)?;
            Ok(value)
        }
        Member::Spare { width } => {
            reader.expect(b"spare")?;
            let number = number(reader, *width)?;
            Ok(Value::Number(number))
        }
    }
}

/// A value for each member, in order, and the brace after them.
#[cycle(fixed_value)]
#[tactic(auto, using(crate::proofs::MemberWays::members_ways))]
pub(crate) fn member_values(
    alloc: Global,
    reader: &mut Reader<'_, '_>,
    members: &Members,
) -> Result<Values, Stopped>
    requires { MembersReadable (members_tree members.now) }
    ensures gives { Gives values_tree (MembersShape (members_tree members.now)) (members_texts (members_tree members.now)) result reader.old reader.new }
    ensures moves { OnOk result (length reader.new < length reader.old) }
{
    let mut values = Values::with_capacity(alloc, members.count())?;
    for member in members.as_slice() {
        let value = member_value(alloc, reader, member)?;
        values.push(value)?;
    }
    reader.expect(b"}")?;
    Ok(values)
}
