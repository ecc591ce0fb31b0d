//! Values of fixed kinds: elements, groups and their members; and lists of them, of extended and closed items and of items
//! that repeat by FX.
ghost use Rattle.std.specs.Prelude.{map, IfSome};
ghost use Rattle.ax_format.specs.InBounds.{FixedInBounds, MembersInBounds, PartsInBounds};
ghost use Rattle.ax_format.specs.Plain.{fixed_tree, member_tree, members_tree, part_tree};
ghost use Rattle.ax_format.specs.Tree.{member_and, no_members};
ghost use Rattle.ax_printed_lines.specs.Builds.{BuildsFixed, BuildsMember, BuildsMembers, BuildsPart, BuildsParts, BuildsRun, named_slot};
ghost use Rattle.ax_printed_lines.specs.Printed.{BuildsSlot};
ghost use Rattle.ax_text_lines.specs.HeldText.{text_part};

use crate::cursor::Cursor;
use crate::laid::LaidBits;
use crate::pieces::{fx_built, last_fx_built, number_built, number_laid};
use ax_format::{Fixed, LastPart, Member, Members, Part};
use ax_text_lines::{TextFixed, TextNamed, TextPart, TextParts};

/// The most bits of a value that is read by its template.
const MOST_BITS: u64 = 56;

/// The value of a fixed kind that comes is read, and its bits are laid.
#[cycle(fixed_built)]
#[inline(always)]
pub fn fixed_built(cursor: &mut Cursor<'_>, fixed: &Fixed, out: &mut LaidBits<'_>) -> Option<()>
    requires { FixedInBounds (fixed_tree fixed.now) }
    ensures { IfSome result (λ done. BuildsFixed (fixed_tree fixed.now) cursor.old cursor.new out.old out.new) }
{
    match fixed {
        Fixed::Element { width, .. } => number_built(cursor, *width, out),
        Fixed::Group(members) => {
            if !cursor.opens() {
                return None;
            }
            members_built(cursor, members, out)
        }
    }
}

/// A member: its name and its value, or `spare` and its number.
#[cycle(fixed_built)]
#[inline(always)]
fn member_built(cursor: &mut Cursor<'_>, member: &Member, out: &mut LaidBits<'_>) -> Option<()>
    requires { MembersInBounds (member_and (member_tree member.now) no_members) }
    ensures { IfSome result (λ done. BuildsMember (member_tree member.now) cursor.old cursor.new out.old out.new) }
{
    match member {
        Member::Named { name, fixed } => {
            if let Fixed::Element { width, .. } = fixed
                && let Some(number) = cursor.named_number(name)
            {
                return number_laid(number, *width, out);
            }
            if !cursor.takes_name(name) {
                return None;
            }
            fixed_built(cursor, fixed, out)
        }
        Member::Spare { width } => {
            if !cursor.takes(b"spare") {
                return None;
            }
            number_built(cursor, *width, out)
        }
    }
}

/// A value for each member, in order, and the brace after them.
#[cycle(fixed_built)]
pub fn members_built(
    cursor: &mut Cursor<'_>,
    members: &Members,
    out: &mut LaidBits<'_>,
) -> Option<()>
    requires { MembersInBounds (members_tree members.now) }
    ensures { IfSome result (λ done. BuildsMembers (members_tree members.now) cursor.old cursor.new out.old out.new) }
{
    for member in members.as_slice() {
        member_built(cursor, member, out)?;
    }
    if !cursor.closes() {
        return None;
    }
    Some(())
}

/// A value of a fixed kind that comes is read, by its template where that reads it, and its bits are laid.
pub fn held_built(
    cursor: &mut Cursor<'_>,
    held: &TextFixed<'_>,
    out: &mut LaidBits<'_>,
) -> Option<()>
    requires { FixedInBounds (fixed_tree held.now.fixed.now) }
    ensures { IfSome result (λ done. BuildsFixed (fixed_tree held.now.fixed.now) cursor.old cursor.new out.old out.new) }
{
    if held.shallow
        && held.width <= MOST_BITS
        && let Some(steps) = &held.steps
        && let Some(bits) = cursor.template(steps)
    {
        return out.push(bits, held.width as u32);
    }
    fixed_built(cursor, held.fixed, out)
}

/// The name and the value of an item or subitem of a fixed kind, where its name comes. It answers whether it does.
#[inline(always)]
pub fn named_built(
    cursor: &mut Cursor<'_>,
    held: &TextNamed<'_>,
    out: &mut LaidBits<'_>,
) -> Option<bool>
    requires { FixedInBounds (fixed_tree held.now.fixed.now) }
    ensures { IfSome result (λ came. BuildsSlot (named_slot held.now) came cursor.old cursor.new out.old out.new) }
{
    if held.shallow
        && held.width <= MOST_BITS
        && let Some(steps) = &held.steps
        && let Some(bits) = cursor.template(steps)
    {
        out.push(bits, held.width as u32)?;
        return Some(true);
    }
    named_member_built(cursor, held, out)
}

// The same by its name and its members.
#[tactic(auto, using(crate::proofs::TemplatesBuilt::named_members))]
fn named_member_built(
    cursor: &mut Cursor<'_>,
    held: &TextNamed<'_>,
    out: &mut LaidBits<'_>,
) -> Option<bool>
    requires { FixedInBounds (fixed_tree held.now.fixed.now) }
    ensures { IfSome result (λ came. BuildsSlot (named_slot held.now) came cursor.old cursor.new out.old out.new) }
{
    if !cursor.takes_name(&held.name) {
        return Some(false);
    }
    fixed_built(cursor, held.fixed, out)?;
    Some(true)
}

/// A part, by its template where that reads it.
#[inline(always)]
fn part_built(cursor: &mut Cursor<'_>, held: &TextPart<'_>, out: &mut LaidBits<'_>) -> Option<()>
    requires { MembersInBounds (text_part held.now) }
    ensures { IfSome result (λ done. BuildsPart (text_part held.now) cursor.old cursor.new out.old out.new) }
{
    if held.shallow
        && held.width <= MOST_BITS
        && let Some(steps) = &held.steps
        && let Some(bits) = cursor.template(steps)
    {
        return out.push(bits, held.width as u32);
    }
    braced_part_built(cursor, held.part, out)
}

/// The same: `part` and its members in braces.
fn braced_part_built(cursor: &mut Cursor<'_>, part: &Part, out: &mut LaidBits<'_>) -> Option<()>
    requires { MembersInBounds (part_tree part.now) }
    ensures { IfSome result (λ done. BuildsPart (part_tree part.now) cursor.old cursor.new out.old out.new) }
{
    if !cursor.takes(b"part") || !cursor.opens() {
        return None;
    }
    members_built(cursor, &part.members, out)
}

/// The parts that are present, and the brace after them.
pub fn parts_built(
    cursor: &mut Cursor<'_>,
    last: LastPart,
    parts: &TextParts<'_>,
    out: &mut LaidBits<'_>,
) -> Option<()>
    requires { PartsInBounds last (map text_part parts.now) }
    ensures { IfSome result (λ done. BuildsParts last (map text_part parts.now) cursor.old cursor.new out.old out.new) }
{
    let list = parts.as_slice();
    let mut index = 0;
    while index < list.len() {
        part_built(cursor, &list[index], out)?;
        index += 1;
        if cursor.closes() {
            return last_fx_built(last, list.len() - index, out);
        }
        fx_built(true, out)?;
    }
    None
}

// A body has room for fewer occurrences.
const MOST: u32 = 65_536;

/// One or more values of a fixed kind, and the brace after them.
pub fn run_built(
    cursor: &mut Cursor<'_>,
    held: &TextFixed<'_>,
    out: &mut LaidBits<'_>,
) -> Option<()>
    requires { FixedInBounds (fixed_tree held.now.fixed.now) }
    ensures { IfSome result (λ done. BuildsRun (fixed_tree held.now.fixed.now) cursor.old cursor.new out.old out.new) }
{
    for _ in 0..MOST {
        held_built(cursor, held, out)?;
        if cursor.closes() {
            return fx_built(false, out);
        }
        fx_built(true, out)?;
    }
    None
}
