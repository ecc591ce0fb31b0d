//! Widths in bits. A width is capped at 2^64 - 1 where it is more.
ghost use Rattle.std.specs.Prelude.{◌≡◌, ◌+◌, ◌^◌};
ghost use Rattle.ax_format.specs.Lengths.{capped};
ghost use Rattle.ax_format.specs.Plain.{fixed_tree, member_tree, members_tree, part_tree};
ghost use Rattle.ax_format.specs.Widths.{width, member_width, members_width, counter_width, counter_octets, fx_width};

use crate::kind::{Counter, Fixed, LastPart, Member, Members, Part};

impl LastPart {
    /// How many FX bits a part has, after which the kind has so many others: one, or none.
    #[inline(always)]
    pub fn fx_width(self, others: usize) -> u32
        ensures { result ≡ fx_width self others }
    {
        if others > 0 {
            return 1;
        }
        match self {
            LastPart::WithFx => 1,
            LastPart::WithoutFx => 0,
        }
    }
}

impl Counter {
    /// How many octets it has.
    #[inline(always)]
    pub fn octets(self) -> u32
        ensures { result ≡ counter_octets self }
    {
        match self {
            Counter::One => 1,
            Counter::Two => 2,
        }
    }

    /// The greatest count that it holds.
    #[inline(always)]
    pub fn greatest(self) -> u32
        ensures { result + 1 ≡ 2 ^ counter_width self }
    {
        match self {
            Counter::One => 255,
            Counter::Two => 65_535,
        }
    }
}

impl Fixed {
    /// The width in bits, capped at 2^64 - 1 where it is more. Takes no memory.
    pub fn width(&self) -> u64
        ensures { result ≡ capped (width (fixed_tree self.now)) }
    {
        width_of(self)
    }
}

impl Part {
    /// The width in bits without the FX bit, capped at 2^64 - 1 where it is more. Takes no memory.
    pub fn width(&self) -> u64
        ensures { result ≡ capped (members_width (part_tree self.now)) }
    {
        width_of_members(&self.members)
    }
}

#[cycle(width)]
fn width_of(fixed: &Fixed) -> u64
    ensures { result ≡ capped (width (fixed_tree fixed.now)) }
{
    match fixed {
        Fixed::Element { width, .. } => u64::from(*width),
        Fixed::Group(members) => width_of_members(members),
    }
}

#[cycle(width)]
fn width_of_member(member: &Member) -> u64
    ensures { result ≡ capped (member_width (member_tree member.now)) }
{
    match member {
        Member::Named { fixed, .. } => width_of(fixed),
        Member::Spare { width } => u64::from(*width),
    }
}

#[cycle(width)]
#[tactic(auto, using(crate::proofs::Counting::widths))]
fn width_of_members(members: &Members) -> u64
    ensures { result ≡ capped (members_width (members_tree members.now)) }
{
    let mut total: u64 = 0;
    for member in members.as_slice() {
        total = total.saturating_add(width_of_member(member));
    }
    total
}
