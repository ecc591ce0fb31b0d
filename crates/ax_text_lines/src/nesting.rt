//! How deep the braces of a text nest.
ghost use Rattle.std.specs.Prelude.{IsTrue};
ghost use Rattle.ax_format.specs.Plain.{fixed_tree, member_tree, members_tree};
ghost use Rattle.ax_format.specs.Tree.{member_and, no_members};
ghost use Rattle.ax_text_lines.specs.Nesting.{FixedWithin, MembersWithin};

use ax_format::{Fixed, Member, Members};

/// How deep the braces of a text that is read by a template nest at most.
pub(crate) const SHALLOW: u32 = 8;

/// Whether the braces of a fixed kind's text nest at most so deep.
#[cycle(fixed_nests)]
#[tactic(auto, using(crate::proofs::Nested::kinds))]
pub(crate) fn fixed_nests(fixed: &Fixed, most: u32) -> bool
    ensures { IsTrue result → FixedWithin most (fixed_tree fixed.now) }
{
    match fixed {
        Fixed::Element { .. } => true,
        Fixed::Group(members) => most > 0 && members_nest(members, most - 1),
    }
}

/// The same of members.
#[cycle(fixed_nests)]
#[tactic(auto, using(crate::proofs::Nested::members))]
pub(crate) fn members_nest(members: &Members, most: u32) -> bool
    ensures { IsTrue result → MembersWithin most (members_tree members.now) }
{
    for member in members.as_slice() {
        if !member_nests(member, most) {
            return false;
        }
    }
    true
}

#[cycle(fixed_nests)]
#[tactic(auto, using(crate::proofs::Nested::kinds))]
fn member_nests(member: &Member, most: u32) -> bool
    ensures { IsTrue result → MembersWithin most (member_and (member_tree member.now) no_members) }
{
    match member {
        Member::Named { name, fixed } => !name.octets().is_empty() && fixed_nests(fixed, most),
        Member::Spare { .. } => true,
    }
}
