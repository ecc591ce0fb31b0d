//! The element at a place. Nothing here takes memory.
ghost use Rattle.std.specs.Prelude.{◌≡◌, map, option_map};
ghost use Rattle.std.specs.Option.{option_copied};
ghost use Rattle.ax_format.specs.Plain.{fixed_tree, member_tree, members_tree, part_tree, kind_tree, spec_tree};
ghost use Rattle.ax_check.specs.Places.{fixed_of_member, member_fixed, part_fixed, fixed_element, kind_element, element_at};

use crate::accepted::Accepted;
use ax_format::{Fixed, Kind, Member, Members, Parts, Place, subitem_kind};

fn fixed_in(member: &Member) -> Option<&Fixed>
    ensures { option_map fixed_tree (option_copied result) ≡ fixed_of_member (member_tree member.now) }
{
    match member {
        Member::Named { fixed, .. } => Some(fixed),
        Member::Spare { .. } => None,
    }
}

/// The fixed kind of the member of that number, from 0. None comes where there is none, or it is a spare.
#[tactic(auto, using(crate::proofs::Stepping::members))]
fn fixed_at(members: &Members, number: u32) -> Option<&Fixed>
    ensures { option_map fixed_tree (option_copied result) ≡ member_fixed number (members_tree members.now) }
{
    fixed_in(members.get(number)?)
}

#[tactic(auto, using(crate::proofs::Stepping::parts))]
fn fixed_in_part(parts: &Parts, part: u32, member: u32) -> Option<&Fixed>
    ensures { option_map fixed_tree (option_copied result) ≡ part_fixed part member (map part_tree parts.now) }
{
    fixed_at(&parts.get(part)?.members, member)
}

/// The element that the steps lead to from the fixed kind.
#[tactic(auto, using(crate::proofs::Stepping::fixed_walks))]
fn element_in_fixed<'k>(fixed: &'k Fixed, steps: &[u32]) -> Option<&'k Fixed>
    ensures { option_map fixed_tree (option_copied result) ≡ fixed_element steps.now (fixed_tree fixed.now) }
{
    match (fixed, steps.split_first()) {
        (Fixed::Element { .. }, None) => Some(fixed),
        (Fixed::Group(members), Some((number, later))) => {
            element_in_fixed(fixed_at(members, *number)?, later)
        }
        _ => None,
    }
}

/// The element that the steps lead to from the kind.
#[tactic(auto, using(crate::proofs::Stepping::kind_walks))]
fn element_in<'k>(kind: &'k Kind, steps: &[u32]) -> Option<&'k Fixed>
    ensures { option_map fixed_tree (option_copied result) ≡ kind_element steps.now (kind_tree kind.now) }
{
    match (kind, steps.split_first()) {
        (Kind::Fixed(fixed), _) => element_in_fixed(fixed, steps),
        (Kind::Extended { parts, .. }, Some((part, below))) => {
            let (member, later) = below.split_first()?;
            element_in_fixed(fixed_in_part(parts, *part, *member)?, later)
        }
        (Kind::Compound(slots), Some((number, later))) => {
            element_in(subitem_kind(slots, *number)?, later)
        }
        _ => None,
    }
}

impl Accepted {
    /// The element at a place of this specification. None comes exactly where it isn't an element.
    #[tactic(auto, using(crate::proofs::Stepping::whole))]
    pub fn element(&self, place: &Place) -> Option<&Fixed>
        ensures { option_map fixed_tree (option_copied result) ≡ element_at (spec_tree self.now) place.now }
    {
        let item = self.spec().slot(place.frn)?;
        element_in(&item.kind, place.steps.as_slice())
    }
}
