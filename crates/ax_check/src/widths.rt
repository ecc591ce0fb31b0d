//! Widths modulo 8, which tell whole octets. They are exact where a sum of widths passes 64 bits.
ghost use Rattle.std.specs.Prelude.{◌≡◌, ◌%◌};
ghost use Rattle.ax_format.specs.Plain.{fixed_tree, member_tree, members_tree};
ghost use Rattle.ax_format.specs.Widths.{width, member_width, members_width};

use ax_format::{Fixed, Member, Members};

/// The bits of a fixed kind past its whole octets.
#[cycle(over)]
pub(crate) fn bits_over(fixed: &Fixed) -> u32
    ensures { result ≡ width (fixed_tree fixed.now) % 8 }
{
    match fixed {
        Fixed::Element { width, .. } => width % 8,
        Fixed::Group(members) => bits_over_members(members),
    }
}

#[cycle(over)]
fn bits_over_member(member: &Member) -> u32
    ensures { result ≡ member_width (member_tree member.now) % 8 }
{
    match member {
        Member::Named { fixed, .. } => bits_over(fixed),
        Member::Spare { width } => width % 8,
    }
}

/// The bits of members together past their whole octets.
#[cycle(over)]
#[tactic(auto, using(crate::proofs::Remainders::widths))]
pub(crate) fn bits_over_members(members: &Members) -> u32
    ensures { result ≡ members_width (members_tree members.now) % 8 }
{
    let mut over: u32 = 0;
    for member in members.as_slice() {
        over = (over + bits_over_member(member)) % 8;
    }
    over
}
