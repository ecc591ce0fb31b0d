//! Runs of bits of a known length, written: elements, spares and groups, the parts of extended and closed items,
//! occurrences by FX.
ghost use Rattle.std.specs.Prelude.{◌≡◌, ◌^◌, ◌<◌, ◌≤◌, length, map, [], ◌∷◌};
ghost use Rattle.ax_bits.specs.Bits.{word};
ghost use Rattle.ax_bits.specs.Out.{Appends, room};
ghost use Rattle.ax_format.specs.Canonical.{number_canon, fixed_canon, members_canon, parts_canon, run_canon};
ghost use Rattle.ax_format.specs.InBounds.{IsWidth, FixedInBounds, MembersInBounds, PartsInBounds};
ghost use Rattle.ax_format.specs.Plain.{fixed_tree, member_tree, members_tree, part_tree, value_tree, values_tree, lists_tree};
ghost use Rattle.ax_format.specs.Shape.{NumberShape, FixedShape, MembersShape, PartsShape, EachShape};
ghost use Rattle.ax_fspec.specs.Reading.{fx_bit};
ghost use Rattle.ax_values.specs.Members.{member_alone, value_alone};

use ax_bits::Out;
use ax_format::{Fixed, LastPart, Lists, Member, Members, Parts, Value, Values};

/// Appends the number of an element or a spare.
#[tactic(auto, using(crate::proofs::Written::numbers))]
fn write_number(value: &Value, width: u32, out: &mut Out<'_>)
    requires width { IsWidth width }
    requires shape { NumberShape width (value_tree value.now) }
    requires room { length (number_canon width (value_tree value.now)) ≤ room out.old }
    ensures { Appends out.old out.new (number_canon width (value_tree value.now)) }
{
    match value {
        Value::Number(number) => out.push_bits(*number, width),
        _ => {}
    }
}

/// Appends the value of a fixed kind.
#[cycle(write_fixed)]
#[tactic(auto, using(ax_bits::proofs::Outputs::appends_none))]
pub(crate) fn write_fixed(value: &Value, fixed: &Fixed, out: &mut Out<'_>)
    requires bounds { FixedInBounds (fixed_tree fixed.now) }
    requires shape { FixedShape (fixed_tree fixed.now) (value_tree value.now) }
    requires room { length (fixed_canon (fixed_tree fixed.now) (value_tree value.now)) ≤ room out.old }
    ensures { Appends out.old out.new (fixed_canon (fixed_tree fixed.now) (value_tree value.now)) }
{
    match (value, fixed) {
        (value, Fixed::Element { width, .. }) => write_number(value, *width, out),
        (Value::Group(values), Fixed::Group(members)) => write_members(values, members, out),
        _ => {}
    }
}

/// Appends the values of members, one for each.
#[cycle(write_fixed)]
pub(crate) fn write_members(values: &Values, members: &Members, out: &mut Out<'_>)
    requires bounds { MembersInBounds (members_tree members.now) }
    requires shape { MembersShape (members_tree members.now) (values_tree values.now) }
    requires room { length (members_canon (members_tree members.now) (values_tree values.now)) ≤ room out.old }
    ensures { Appends out.old out.new (members_canon (members_tree members.now) (values_tree values.now)) }
{
    let mut rest = members.as_slice();
    for value in values.as_slice() {
        let Some((member, later)) = rest.split_first() else {
            return;
        };
        write_member(value, member, out);
        rest = later;
    }
}

#[cycle(write_fixed)]
fn write_member(value: &Value, member: &Member, out: &mut Out<'_>)
    requires bounds { MembersInBounds (member_alone (member_tree member.now)) }
    requires shape { MembersShape (member_alone (member_tree member.now)) (value_alone (value_tree value.now)) }
    requires room { length (members_canon (member_alone (member_tree member.now)) (value_alone (value_tree value.now))) ≤ room out.old }
    ensures { Appends out.old out.new (members_canon (member_alone (member_tree member.now)) (value_alone (value_tree value.now))) }
{
    match member {
        Member::Named { fixed, .. } => write_fixed(value, fixed, out),
        Member::Spare { width } => write_number(value, *width, out),
    }
}

/// Appends an FX bit, which is set where more follows.
#[tactic(auto, using(crate::proofs::Written::fx_written))]
fn write_fx(more: bool, out: &mut Out<'_>)
    requires { 1 ≤ room out.old }
    ensures { Appends out.old out.new (fx_bit more ∷ []) }
{
    out.push_bits(if more { 1 } else { 0 }, 1);
}

/// Appends the parts that are present, each with its FX bit where it has one.
pub(crate) fn write_parts(lists: &Lists, last: LastPart, parts: &Parts, out: &mut Out<'_>)
    requires bounds { PartsInBounds last (map part_tree parts.now) }
    requires shape { PartsShape (map part_tree parts.now) (lists_tree lists.now) }
    requires room { length (parts_canon last (map part_tree parts.now) (lists_tree lists.now)) ≤ room out.old }
    ensures { Appends out.old out.new (parts_canon last (map part_tree parts.now) (lists_tree lists.now)) }
{
    let mut rest = lists.as_slice();
    let mut left = parts.as_slice();
    while let Some((part, others)) = left.split_first() {
        let Some((values, later)) = rest.split_first() else {
            return;
        };
        write_members(values, &part.members, out);
        if last.fx_width(others.len()) == 1 {
            write_fx(!later.is_empty(), out);
        }
        rest = later;
        left = others;
    }
}

/// Appends the occurrences by FX.
pub(crate) fn write_run(values: &Values, fixed: &Fixed, out: &mut Out<'_>)
    requires bounds { FixedInBounds (fixed_tree fixed.now) }
    requires shape { EachShape (FixedShape (fixed_tree fixed.now)) (values_tree values.now) }
    requires room { length (run_canon (fixed_tree fixed.now) (values_tree values.now)) ≤ room out.old }
    ensures { Appends out.old out.new (run_canon (fixed_tree fixed.now) (values_tree values.now)) }
{
    let mut left = values.as_slice();
    while let Some((value, later)) = left.split_first() {
        write_fixed(value, fixed, out);
        write_fx(!later.is_empty(), out);
        left = later;
    }
}
