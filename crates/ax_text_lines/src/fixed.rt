//! Runs of bits of a known length, printed member by member: elements, spares, groups and parts.
ghost use Rattle.std.specs.Prelude.{◌≡◌, ◌+◌, ◌*◌, ◌/◌, ◌%◌, ◌^◌, ◌<◌, ◌≤◌, length, OnOk};
ghost use Rattle.ax_bits.specs.Bits.{word};
ghost use Rattle.ax_format.specs.InBounds.{IsWidth, FixedInBounds, MembersInBounds};
ghost use Rattle.ax_format.specs.Plain.{fixed_tree, member_tree, members_tree, part_tree};
ghost use Rattle.ax_format.specs.Sizes.{longest_body};
ghost use Rattle.ax_format.specs.Widths.{width, members_width};
ghost use Rattle.ax_text_lines.specs.Prints.{PrintsNumber, PrintsFixed, PrintsMembers, PrintsPart};
ghost use Rattle.ax_values.specs.Members.{member_alone};

use crate::line::TokenLine;
use ax_bits::{bits_at, short_bits_at};
use ax_format::{Fixed, Member, Members, Part};
use std::alloc::AllocError;

/// Prints the number in the `width` bits from bit `at` of the body on, of any width.
#[cold]
#[inline(never)]
#[tactic(auto, using(crate::proofs::FixedPrinted::number_printed))]
fn print_wide(line: &mut TokenLine, width: u32, body: &[u8], at: u32) -> Result<(), AllocError>
    requires width { IsWidth width }
    requires within { at + width ≤ 8 * length body.now }
    ensures { OnOk result (PrintsNumber width body.now at line.old.octets line.new.octets) }
{
    line.wide_number(bits_at(body, at, width))
}

/// Prints the number in the `width` bits from bit `at` of the body on, which is moved after them.
#[tactic(auto, using(crate::proofs::FixedPrinted::number_printed))]
fn print_number(
    line: &mut TokenLine,
    width: u32,
    body: &[u8],
    at: &mut u32,
) -> Result<(), AllocError>
    requires width { IsWidth width }
    requires within { at.old + width ≤ 8 * length body.now }
    requires body { length body.now ≤ longest_body }
    ensures text { OnOk result (PrintsNumber width body.now at.old line.old.octets line.new.octets) }
    ensures at { at.new ≡ at.old + width }
{
    let here = *at;
    *at += width;
    if width > 56 {
        return print_wide(line, width, body, here);
    }
    line.number(short_bits_at(body, here, width))
}

/// Prints the value in the bits from bit `at` of the body on, which is moved after them.
#[cycle(print_fixed)]
#[tactic(auto, using(ax_text_form::proofs::Printed::braces_put))]
pub(crate) fn print_fixed(
    line: &mut TokenLine,
    fixed: &Fixed,
    body: &[u8],
    at: &mut u32,
) -> Result<(), AllocError>
    requires bounds { FixedInBounds (fixed_tree fixed.now) }
    requires within { at.old + width (fixed_tree fixed.now) ≤ 8 * length body.now }
    requires body { length body.now ≤ longest_body }
    ensures text { OnOk result (PrintsFixed (fixed_tree fixed.now) body.now at.old line.old.octets line.new.octets) }
    ensures at { OnOk result (at.new ≡ at.old + width (fixed_tree fixed.now)) }
{
    match fixed {
        Fixed::Element { width, .. } => print_number(line, *width, body, at),
        Fixed::Group(members) => {
            line.open()?;
            print_members(line, members, body, at)?;
            line.close()?;
            Ok(())
        }
    }
}

/// Prints members with their values, one after the other.
#[cycle(print_fixed)]
#[tactic(auto, using(crate::proofs::FixedPrinted::members))]
pub(crate) fn print_members(
    line: &mut TokenLine,
    members: &Members,
    body: &[u8],
    at: &mut u32,
) -> Result<(), AllocError>
    requires bounds { MembersInBounds (members_tree members.now) }
    requires within { at.old + members_width (members_tree members.now) ≤ 8 * length body.now }
    requires body { length body.now ≤ longest_body }
    ensures text { OnOk result (PrintsMembers (members_tree members.now) body.now at.old line.old.octets line.new.octets) }
    ensures at { OnOk result (at.new ≡ at.old + members_width (members_tree members.now)) }
{
    for member in members.as_slice() {
        print_member(line, member, body, at)?;
    }
    Ok(())
}

#[cycle(print_fixed)]
#[tactic(auto, using(ax_text_form::proofs::Printed::both_put))]
fn print_member(
    line: &mut TokenLine,
    member: &Member,
    body: &[u8],
    at: &mut u32,
) -> Result<(), AllocError>
    requires bounds { MembersInBounds (member_alone (member_tree member.now)) }
    requires within { at.old + members_width (member_alone (member_tree member.now)) ≤ 8 * length body.now }
    requires body { length body.now ≤ longest_body }
    ensures text { OnOk result (PrintsMembers (member_alone (member_tree member.now)) body.now at.old line.old.octets line.new.octets) }
    ensures at { OnOk result (at.new ≡ at.old + members_width (member_alone (member_tree member.now))) }
{
    match member {
        Member::Named { name, fixed } => {
            line.name(name)?;
            print_fixed(line, fixed, body, at)?;
            Ok(())
        }
        Member::Spare { width } => {
            line.text(b"spare")?;
            print_number(line, *width, body, at)?;
            Ok(())
        }
    }
}

/// Prints a part with its values, which begin at bit `at` of the body. That is moved after them, to the FX bit where the
/// part has one.
#[tactic(auto, using(ax_text_form::proofs::KindWays::part_put))]
pub(crate) fn print_part(
    line: &mut TokenLine,
    part: &Part,
    body: &[u8],
    at: &mut u32,
) -> Result<(), AllocError>
    requires bounds { MembersInBounds (part_tree part.now) }
    requires within { at.old + members_width (part_tree part.now) ≤ 8 * length body.now }
    requires body { length body.now ≤ longest_body }
    ensures text { OnOk result (PrintsPart (part_tree part.now) body.now at.old line.old.octets line.new.octets) }
    ensures at { OnOk result (at.new ≡ at.old + members_width (part_tree part.now)) }
{
    line.text(b"part")?;
    line.open()?;
    print_members(line, &part.members, body, at)?;
    line.close()
}
