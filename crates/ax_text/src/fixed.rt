//! The lines of fixed kinds: elements, groups and their members.
ghost use Rattle.std.specs.Prelude.{OnOk};
ghost use Rattle.ax_format.specs.Plain.{fixed_tree, member_tree, members_tree, value_tree, values_tree};
ghost use Rattle.ax_format.specs.Shape.{FixedShape, MembersShape};
ghost use Rattle.ax_text_form.specs.Listable.{FixedListable, MemberListable, MembersListable};
ghost use Rattle.ax_text_form.specs.Printing.{PutsLines};
ghost use Rattle.ax_text_form.specs.ShowText.{fixed_lines, member_lines, members_lines};
ghost use Rattle.ax_text_form.specs.Slots.{MemberShape};

use crate::paths::path_under;
use ax_format::{Fixed, Member, Members, Value, Values};
use ax_octets::LinePath;
use ax_text_form::Lister;
use std::alloc::AllocError;

/// The lines of the value of a fixed kind.
#[cycle(list_fixed)]
pub(crate) fn list_fixed(
    lister: &mut Lister,
    value: &Value,
    fixed: &Fixed,
    path: &LinePath,
) -> Result<(), AllocError>
    requires listable { FixedListable (fixed_tree fixed.now) }
    requires shape { FixedShape (fixed_tree fixed.now) (value_tree value.now) }
    ensures { OnOk result (PutsLines (fixed_lines (fixed_tree fixed.now) path.now (value_tree value.now)) lister.old lister.new) }
{
    match (value, fixed) {
        (Value::Number(number), Fixed::Element { width, content }) => {
            lister.element_at(*number, *width, content, path)
        }
        (Value::Group(values), Fixed::Group(members)) => list_members(
            lister, values, members, path,
        ),
        _ => Ok(()),
    }
}

#[cycle(list_fixed)]
fn list_member(
    lister: &mut Lister,
    value: &Value,
    member: &Member,
    path: &LinePath,
) -> Result<(), AllocError>
    requires listable { MemberListable (member_tree member.now) }
    requires shape { MemberShape (member_tree member.now) (value_tree value.now) }
    ensures { OnOk result (PutsLines (member_lines (member_tree member.now) path.now (value_tree value.now)) lister.old lister.new) }
{
    match (value, member) {
        (value, Member::Named { name, fixed }) => {
            let inner = path_under(lister, path, name)?;
            list_fixed(lister, value, fixed, &inner)
        }
        (Value::Number(number), Member::Spare { .. }) => { lister.wide_spare_under(*number, path) }
        _ => Ok(()),
    }
}

/// Members, one after the other.
#[cycle(list_fixed)]
#[tactic(auto, using(crate::proofs::ListedMembers::members_ways))]
pub(crate) fn list_members(
    lister: &mut Lister,
    values: &Values,
    members: &Members,
    path: &LinePath,
) -> Result<(), AllocError>
    requires listable { MembersListable (members_tree members.now) }
    requires shape { MembersShape (members_tree members.now) (values_tree values.now) }
    ensures { OnOk result (PutsLines (members_lines (members_tree members.now) path.now (values_tree values.now)) lister.old lister.new) }
{
    for (member, value) in members.as_slice().iter().zip(values.as_slice()) {
        list_member(lister, value, member, path)?;
    }
    Ok(())
}
