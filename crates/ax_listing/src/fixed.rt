//! The lines of fixed kinds, from their bits: elements, groups and their members.
ghost use Rattle.std.specs.Prelude.{◌≡◌, ◌+◌, ◌*◌, ◌/◌, ◌%◌, ◌^◌, ◌<◌, ◌≤◌, length, IfErr, IfOk, OnOk};
ghost use Rattle.ax_format.specs.InBounds.{IsWidth, FixedInBounds, MembersInBounds};
ghost use Rattle.ax_format.specs.Paths.{at as under};
ghost use Rattle.ax_held_kinds.specs.HeldFixed.{held_fixed, held_member, held_members};
ghost use Rattle.ax_format.specs.Widths.{width, members_width};
ghost use Rattle.ax_text_form.specs.Listable.{FixedListable, MemberListable, MembersListable};
ghost use Rattle.ax_listing.specs.Shown.{member_width, MemberInBounds, ShowsElement, ShowsShort, ShowsSpare, ShowsFixed, ShowsMember, ShowsMembers};
ghost use Rattle.ax_listing.specs.Stopped.{IsBitAfter, IsStopped};

use crate::contents::{put_at, put_under};
use crate::element::ListedElement;
use crate::numbers::{number_at, wide_number_at};
use crate::paths::set_named;
use crate::position::BitPosition;
use crate::stop::{FixedStop, bit_after};
use ax_format::Name;
use ax_held_kinds::{HeldFixed, HeldMember, HeldMembers, ShortElement};
use ax_octets::LinePath;
use ax_text_form::Lister;
use std::alloc::AllocError;

/// The line of an element of that name, whose bits are those from there on. Ok is the bit after them.
#[inline(always)]
#[tactic(auto, using(crate::proofs::Members::elements, crate::proofs::Stops::stops))]
fn show_element(
    lister: &mut Lister,
    name: &Name,
    element: ListedElement<'_, '_>,
    from: BitPosition<'_>,
    path: &LinePath,
) -> Result<u32, FixedStop>
    ensures lines { OnOk result (ShowsElement element.entry (under path.now name.now) from.entry lister.old.out.octets lister.new.out.octets) }
    ensures end { IfOk result (IsBitAfter from.entry element.entry.width) }
    ensures stop { IfErr result (IsStopped from.entry element.entry.width) }
{
    let end = bit_after(from, element.width)?;
    if element.width > 56 {
        show_wide_element(lister, name, element, from, path)?;
        return Ok(end);
    }
    let number = number_at(from, element.width);
    put_under(lister, number, element, path, name)?;
    Ok(end)
}

/// The line of an element of that name and of more bits than are read at once.
#[cold]
#[inline(never)]
fn show_wide_element(
    lister: &mut Lister,
    name: &Name,
    element: ListedElement<'_, '_>,
    from: BitPosition<'_>,
    path: &LinePath,
) -> Result<(), AllocError>
    requires within { from.at + element.width ≤ 8 * length from.body.now }
    ensures lines { OnOk result (ShowsElement element.entry (under path.now name.now) from.entry lister.old.out.octets lister.new.out.octets) }
{
    let mut inner = lister.blank_path();
    set_named(&mut inner, path, name)?;
    let number = wide_number_at(from, element.width);
    put_at(lister, number, element, &inner)
}

/// The line of an element of few bits, which are those from there on: one of the lines that were made. Ok is the bit after them.
#[inline(always)]
#[tactic(auto, using(crate::proofs::ShortLines::shorts, crate::proofs::Stops::stops))]
fn show_short(
    lister: &mut Lister,
    short: &ShortElement<'_>,
    from: BitPosition<'_>,
    path: &LinePath,
) -> Result<u32, FixedStop>
    requires width { IsWidth short.now.width }
    ensures lines { OnOk result (ShowsShort short.now path.now from.entry lister.old.out.octets lister.new.out.octets) }
    ensures end { IfOk result (IsBitAfter from.entry short.now.width) }
    ensures stop { IfErr result (IsStopped from.entry short.now.width) }
{
    let end = bit_after(from, short.width)?;
    let number = number_at(from, short.width);
    lister.literal_under(short.line(number), path)?;
    Ok(end)
}

/// The line of so many spare bits, more than are read at once.
#[cold]
#[inline(never)]
fn show_wide_spare(
    lister: &mut Lister,
    width: u32,
    from: BitPosition<'_>,
    path: &LinePath,
) -> Result<(), AllocError>
    requires width { IsWidth width }
    requires within { from.at + width ≤ 8 * length from.body.now }
    ensures lines { OnOk result (ShowsSpare width path.now from.entry lister.old.out.octets lister.new.out.octets) }
{
    lister.wide_spare_under(wide_number_at(from, width), path)
}

/// The lines of the value in the bits from there on. Ok is the bit after them.
#[tactic(auto, using(crate::proofs::Members::elements, crate::proofs::Stops::stops))]
pub(crate) fn show_fixed(
    lister: &mut Lister,
    fixed: &HeldFixed<'_>,
    from: BitPosition<'_>,
    path: &LinePath,
) -> Result<u32, FixedStop>
    requires bounds { FixedInBounds (held_fixed fixed.now) }
    requires listable { FixedListable (held_fixed fixed.now) }
    ensures lines { OnOk result (ShowsFixed (held_fixed fixed.now) path.now from.entry lister.old.out.octets lister.new.out.octets) }
    ensures end { IfOk result (IsBitAfter from.entry (width (held_fixed fixed.now))) }
    ensures stop { IfErr result (IsStopped from.entry (width (held_fixed fixed.now))) }
{
    match fixed {
        HeldFixed::Element { width, content } => {
            let end = bit_after(from, *width)?;
            let number = wide_number_at(from, *width);
            let element = ListedElement {
                width: *width,
                content,
            };
            put_at(lister, number, element, path)?;
            Ok(end)
        }
        HeldFixed::Group(members) => show_members(lister, members, from, path),
    }
}

/// The lines of members, one after the other. Ok is the bit after them. The loop stands here alone, so that the members' lines
/// are put within it.
#[inline(never)]
#[cycle(show_members)]
#[tactic(auto, using(crate::proofs::Members::members, crate::proofs::Stops::stops))]
pub(crate) fn show_members(
    lister: &mut Lister,
    members: &HeldMembers<'_>,
    from: BitPosition<'_>,
    path: &LinePath,
) -> Result<u32, FixedStop>
    requires bounds { MembersInBounds (held_members members.now) }
    requires listable { MembersListable (held_members members.now) }
    ensures lines { OnOk result (ShowsMembers (held_members members.now) path.now from.entry lister.old.out.octets lister.new.out.octets) }
    ensures end { IfOk result (IsBitAfter from.entry (members_width (held_members members.now))) }
    ensures stop { IfErr result (IsStopped from.entry (members_width (held_members members.now))) }
{
    let mut at = from.at;
    for member in members.as_slice() {
        let next = BitPosition {
            body: from.body,
            at,
        };
        at = show_member(lister, member, next, path)?;
    }
    Ok(at)
}

#[cycle(show_members)]
#[tactic(auto, using(crate::proofs::Members::elements, crate::proofs::Stops::stops))]
fn show_member(
    lister: &mut Lister,
    member: &HeldMember<'_>,
    from: BitPosition<'_>,
    path: &LinePath,
) -> Result<u32, FixedStop>
    requires bounds { MemberInBounds (held_member member.now) }
    requires listable { MemberListable (held_member member.now) }
    ensures lines { OnOk result (ShowsMember (held_member member.now) path.now from.entry lister.old.out.octets lister.new.out.octets) }
    ensures end { IfOk result (IsBitAfter from.entry (member_width (held_member member.now))) }
    ensures stop { IfErr result (IsStopped from.entry (member_width (held_member member.now))) }
{
    match member {
        HeldMember::Named { name, fixed } => show_named(lister, name, fixed, from, path),
        HeldMember::Short(short) => show_short(lister, short, from, path),
        HeldMember::Spare { width } => {
            let end = bit_after(from, *width)?;
            if *width > 56 {
                show_wide_spare(lister, *width, from, path)?;
                return Ok(end);
            }
            lister.spare_under(number_at(from, *width), path)?;
            Ok(end)
        }
    }
}

/// The lines of a member of that name. An element's path isn't made: its line is put together on the listing.
#[inline(always)]
#[cycle(show_members)]
#[tactic(auto, using(crate::proofs::Members::elements, crate::proofs::Stops::stops))]
pub(crate) fn show_named(
    lister: &mut Lister,
    name: &Name,
    fixed: &HeldFixed<'_>,
    from: BitPosition<'_>,
    path: &LinePath,
) -> Result<u32, FixedStop>
    requires bounds { FixedInBounds (held_fixed fixed.now) }
    requires listable { FixedListable (held_fixed fixed.now) }
    ensures lines { OnOk result (ShowsFixed (held_fixed fixed.now) (under path.now name.now) from.entry lister.old.out.octets lister.new.out.octets) }
    ensures end { IfOk result (IsBitAfter from.entry (width (held_fixed fixed.now))) }
    ensures stop { IfErr result (IsStopped from.entry (width (held_fixed fixed.now))) }
{
    match fixed {
        HeldFixed::Element { width, content } => {
            let element = ListedElement {
                width: *width,
                content,
            };
            show_element(lister, name, element, from, path)
        }
        HeldFixed::Group(members) => show_group(lister, name, members, from, path),
    }
}

/// The lines of the members of a group of that name.
#[inline(never)]
#[cycle(show_members)]
#[tactic(auto, using(crate::proofs::Stops::stops))]
fn show_group(
    lister: &mut Lister,
    name: &Name,
    members: &HeldMembers<'_>,
    from: BitPosition<'_>,
    path: &LinePath,
) -> Result<u32, FixedStop>
    requires bounds { MembersInBounds (held_members members.now) }
    requires listable { MembersListable (held_members members.now) }
    ensures lines { OnOk result (ShowsMembers (held_members members.now) (under path.now name.now) from.entry lister.old.out.octets lister.new.out.octets) }
    ensures end { IfOk result (IsBitAfter from.entry (members_width (held_members members.now))) }
    ensures stop { IfErr result (IsStopped from.entry (members_width (held_members members.now))) }
{
    let mut inner = lister.blank_path();
    set_named(&mut inner, path, name)?;
    show_members(lister, members, from, &inner)
}
