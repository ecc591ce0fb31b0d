//! The flaws of fixed kinds, of groups and of parts.
ghost use Rattle.std.specs.Prelude.{◌≡◌, ◌∷◌, ◌++◌, ◌+◌, ◌%◌, [], map, not, IfOk, OnOk};
ghost use Rattle.ax_format.specs.Flaws.{flaw_where, is_among, is_bad_width, is_bad_element_width, is_bad_scale, is_bad_string_width, is_no_multiple, is_too_wide, fixed_flaws, members_flaws, whole_flaws, parts_flaws, names_with};
ghost use Rattle.ax_format.specs.Paths.{at};
ghost use Rattle.ax_format.specs.Plain.{fixed_tree, member_tree, members_tree, part_tree};
ghost use Rattle.ax_format.specs.Tree.{element, group};
ghost use Rattle.ax_format.specs.Widths.{members_width};
ghost use Rattle.ax_format.specs.declared.flaw.FlawKind.TheVariants.{BadWidth, BadScale, BadStringWidth};
ghost use Rattle.ax_check.specs.Members.{member_flaws, with_member};
ghost use Rattle.ax_check.specs.Names.{listed, AreSame};

use crate::names::{Names, enter};
use crate::texts::at_spare;
use ax_format::{Content, Fixed, Flaw, FlawKind, Flaws, Member, Members, Name, Text, at_name};
use std::alloc::{AllocError, Global};

/// Notes a flaw where the test holds. A list of more than 2^32 - 1 flaws is a want of memory.
pub(crate) fn note(
    alloc: Global,
    found: &mut Flaws,
    holds: bool,
    kind: FlawKind,
    path: &Text,
) -> Result<(), AllocError>
    ensures { OnOk result (found.new ≡ found.old ++ flaw_where holds kind path.now) }
{
    if !holds {
        return Ok(());
    }
    if found.count() == u32::MAX {
        return Err(AllocError);
    }
    let path = path.copy(alloc)?;
    found.push(Flaw { kind, path })
}

/// The path of a name after others, which gain it, and whether it is one of them.
pub(crate) fn enter_at<'s>(
    alloc: Global,
    path: &Text,
    names: &mut Names<'s>,
    name: &'s Name,
) -> Result<(Text, bool), AllocError>
    ensures path { IfOk result (λ made. made.0 ≡ at path.now name.now) }
    ensures known { IfOk result (λ made. made.1 ≡ is_among name.now (listed names.old.set)) }
    ensures names { OnOk result (AreSame (listed names.new.set) (name.now ∷ listed names.old.set)) }
{
    let known = enter(names, name)?;
    let path = at_name(alloc, path, name)?;
    Ok((path, known))
}

fn has_bad_width(width: u32) -> bool
    ensures { result ≡ is_bad_width width }
{
    width == 0 || width > 128
}

fn has_bad_element_width(width: u32, content: &Content) -> bool
    ensures { result ≡ is_bad_element_width width content.now }
{
    match content {
        Content::Quantity(_) => has_bad_width(width) || width > 64,
        _ => has_bad_width(width),
    }
}

fn has_bad_scale(content: &Content) -> bool
    ensures { result ≡ is_bad_scale content.now }
{
    match content {
        Content::Quantity(scale) => scale.num == 0 || scale.den == 0,
        _ => false,
    }
}

fn has_bad_string_width(width: u32, content: &Content) -> bool
    ensures { result ≡ is_bad_string_width width content.now }
{
    match content {
        Content::Ascii => width % 8 != 0,
        Content::Icao => width % 6 != 0,
        Content::Octal => width % 3 != 0,
        _ => false,
    }
}

fn element_flaws(
    alloc: Global,
    found: &mut Flaws,
    path: &Text,
    width: u32,
    content: &Content,
) -> Result<(), AllocError>
    ensures { OnOk result (found.new ≡ found.old ++ fixed_flaws path.now (element width content.now)) }
{
    let (bad_width, bad_scale) = (
        has_bad_element_width(width, content),
        has_bad_scale(content),
    );
    note(alloc, found, bad_width, FlawKind::BadWidth, path)?;
    note(alloc, found, bad_scale, FlawKind::BadScale, path)?;
    let bad_string = has_bad_string_width(width, content);
    note(alloc, found, bad_string, FlawKind::BadStringWidth, path)
}

/// The own flaws of a fixed kind.
#[cycle(fixed)]
pub(crate) fn find_in_fixed(
    alloc: Global,
    found: &mut Flaws,
    path: &Text,
    fixed: &Fixed,
) -> Result<(), AllocError>
    ensures { OnOk result (found.new ≡ found.old ++ fixed_flaws path.now (fixed_tree fixed.now)) }
{
    match fixed {
        Fixed::Element { width, content } => element_flaws(alloc, found, path, *width, content),
        Fixed::Group(members) => find_in_group(alloc, found, path, members),
    }
}

#[cycle(fixed)]
#[tactic(auto, using(crate::proofs::FlawLists::group_found))]
fn find_in_group(
    alloc: Global,
    found: &mut Flaws,
    path: &Text,
    members: &Members,
) -> Result<(), AllocError>
    ensures { OnOk result (found.new ≡ found.old ++ fixed_flaws path.now (group (members_tree members.now))) }
{
    note(alloc, found, members.count() == 0, FlawKind::Empty, path)?;
    let mut names = Names::new(alloc);
    find_in_members(alloc, found, path, &mut names, members)
}

/// The flaws of one member after others of these names, which gain its own.
#[cycle(fixed)]
fn find_in_member<'s>(
    alloc: Global,
    found: &mut Flaws,
    path: &Text,
    names: &mut Names<'s>,
    member: &'s Member,
) -> Result<(), AllocError>
    ensures flaws { OnOk result (found.new ≡ found.old ++ member_flaws path.now (listed names.old.set) (member_tree member.now)) }
    ensures names { OnOk result (AreSame (listed names.new.set) (with_member (listed names.old.set) (member_tree member.now))) }
{
    match member {
        Member::Spare { width } => {
            let path = at_spare(alloc, path)?;
            note(
                alloc,
                found,
                has_bad_width(*width),
                FlawKind::BadWidth,
                &path,
            )
        }
        Member::Named { name, fixed } => {
            let (path, known) = enter_at(alloc, path, names, name)?;
            note(alloc, found, known, FlawKind::DuplicateName, &path)?;
            find_in_fixed(alloc, found, &path, fixed)
        }
    }
}

/// The flaws of members after others of these names, which gain theirs.
#[cycle(fixed)]
#[tactic(auto, using(crate::proofs::FlawLists::members))]
pub(crate) fn find_in_members<'s>(
    alloc: Global,
    found: &mut Flaws,
    path: &Text,
    names: &mut Names<'s>,
    members: &'s Members,
) -> Result<(), AllocError>
    ensures flaws { OnOk result (found.new ≡ found.old ++ members_flaws path.now (listed names.old.set) (members_tree members.now)) }
    ensures names { OnOk result (AreSame (listed names.new.set) (names_with (listed names.old.set) (members_tree members.now))) }
{
    for member in members.as_slice() {
        find_in_member(alloc, found, path, names, member)?;
    }
    Ok(())
}
