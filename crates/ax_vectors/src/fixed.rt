//! Fixed kinds drawn: elements, spares and groups, the parts of extended items, occurrences by FX.
ghost use Rattle.std.specs.Prelude.{◌≡◌, ◌+◌, ◌*◌, ◌%◌, ◌^◌, ◌<◌, ◌≤◌, ◌++◌, [], ◌∷◌, length, map, OnOk};
ghost use Rattle.ax_format.specs.InBounds.{IsWidth, FixedInBounds, MembersInBounds, PartsInBounds};
ghost use Rattle.ax_format.specs.Plain.{fixed_tree, member_tree, members_tree, part_tree};
ghost use Rattle.ax_format.specs.Tree.{member_and, no_members};
ghost use Rattle.ax_vectors.specs.Made.{joined, draws_needed, number_made, fixed_made, member_made, members_made, fx_before, parts_made, run_made};
ghost use Rattle.ax_vectors.specs.Making.{Adds};

use crate::bit_string::BitString;
use crate::draws::Draws;
use ax_format::{Fixed, LastPart, Member, Members, Parts};
use std::alloc::AllocError;

// How many numbers a draw may answer.
const DRAW_RANGE: u128 = 4_294_967_296;

/// So many draws joined, the first one most significant.
#[tactic(auto, using(crate::proofs::Left::numbers))]
fn draw_joined(count: u32, draws: &mut Draws) -> u128
    requires { count ≤ 4 }
    ensures number { result ≡ (joined count 0 draws.old).0 }
    ensures state { draws.new ≡ (joined count 0 draws.old).1 }
{
    let mut number = 0;
    let mut left = count;
    while left > 0 {
        left -= 1;
        number = number * DRAW_RANGE + draws.draw() as u128;
    }
    number
}

/// The low bits of a number, `width` of them.
fn low_bits(number: u128, width: u32) -> u128
    requires { width ≤ 128 }
    ensures { result ≡ number % 2 ^ width }
{
    if width == 128 {
        return number;
    }
    number % (1 << width)
}

/// Puts the drawn number of an element or a spare after the bits.
#[tactic(auto, using(crate::proofs::Left::number_adds))]
fn make_number(width: u32, draws: &mut Draws, into: &mut BitString) -> Result<(), AllocError>
    requires { IsWidth width }
    ensures { OnOk result (Adds (number_made width) into.old into.new draws.old draws.new) }
{
    let number = draw_joined((width + 31) / 32, draws);
    into.push(low_bits(number, width), width)
}

/// Puts what is drawn under a fixed kind after the bits.
#[cycle(make_fixed)]
pub(crate) fn make_fixed(
    fixed: &Fixed,
    draws: &mut Draws,
    into: &mut BitString,
) -> Result<(), AllocError>
    requires { FixedInBounds (fixed_tree fixed.now) }
    ensures { OnOk result (Adds (fixed_made (fixed_tree fixed.now)) into.old into.new draws.old draws.new) }
{
    match fixed {
        Fixed::Element { width, .. } => make_number(*width, draws, into),
        Fixed::Group(members) => make_members(members, draws, into),
    }
}

/// Puts what is drawn for members, one after the other, after the bits.
#[cycle(make_fixed)]
#[tactic(auto, using(crate::proofs::Left::members))]
pub(crate) fn make_members(
    members: &Members,
    draws: &mut Draws,
    into: &mut BitString,
) -> Result<(), AllocError>
    requires { MembersInBounds (members_tree members.now) }
    ensures { OnOk result (Adds (members_made (members_tree members.now)) into.old into.new draws.old draws.new) }
{
    for member in members.as_slice() {
        make_member(member, draws, into)?;
    }
    Ok(())
}

#[cycle(make_fixed)]
fn make_member(member: &Member, draws: &mut Draws, into: &mut BitString) -> Result<(), AllocError>
    requires { MembersInBounds (member_and (member_tree member.now) no_members) }
    ensures { OnOk result (Adds (member_made (member_tree member.now)) into.old into.new draws.old draws.new) }
{
    match member {
        Member::Named { fixed, .. } => make_fixed(fixed, draws, into),
        Member::Spare { width } => make_number(*width, draws, into),
    }
}

/// Puts the end of a unit after the bits, where so many units follow it: 1 before another one, else 0 in the FX bit
/// of a last one, which has `fx` of them, one or none.
#[tactic(auto, using(crate::proofs::Left::unit_ends))]
pub(crate) fn push_fx(fx: u32, left: u32, into: &mut BitString) -> Result<(), AllocError>
    requires { fx ≤ 1 }
    ensures { OnOk result (into.new ≡ into.old ++ fx_before fx left) }
{
    if left > 0 {
        return into.push(1, 1);
    }
    if fx == 0 {
        return Ok(());
    }
    into.push(0, 1)
}

/// Puts what is drawn for the first `count` parts after the bits.
#[tactic(auto, using(crate::proofs::Left::parts))]
pub(crate) fn make_parts(
    last: LastPart,
    count: u32,
    parts: &Parts,
    draws: &mut Draws,
    into: &mut BitString,
) -> Result<(), AllocError>
    requires { PartsInBounds last (map part_tree parts.now) }
    ensures { OnOk result (Adds (parts_made last count (map part_tree parts.now)) into.old into.new draws.old draws.new) }
{
    let mut left = count;
    let mut rest = parts.as_slice();
    while let Some((part, later)) = rest.split_first() {
        if left == 0 {
            return Ok(());
        }
        left -= 1;
        make_members(&part.members, draws, into)?;
        push_fx(last.fx_width(later.len()), left, into)?;
        rest = later;
    }
    Ok(())
}

/// Puts what is drawn for `count` occurrences by FX after the bits.
#[tactic(auto, using(crate::proofs::Left::run))]
pub(crate) fn make_run(
    count: u32,
    fixed: &Fixed,
    draws: &mut Draws,
    into: &mut BitString,
) -> Result<(), AllocError>
    requires { FixedInBounds (fixed_tree fixed.now) }
    ensures { OnOk result (Adds (run_made count (fixed_tree fixed.now)) into.old into.new draws.old draws.new) }
{
    let mut left = count;
    while left > 0 {
        left -= 1;
        make_fixed(fixed, draws, into)?;
        push_fx(1, left, into)?;
    }
    Ok(())
}
