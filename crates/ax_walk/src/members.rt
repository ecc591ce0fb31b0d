//! Members of groups and parts, and parts of extended and closed items, by their numbers.
ghost use Rattle.std.specs.Prelude.{◌≡◌, ◌+◌, ◌-◌, ◌*◌, ◌<◌, ◌≤◌, length, drop, IfSome, IfNone};
ghost use Rattle.ax_bits.specs.Bits.{bits};
ghost use Rattle.ax_format.specs.Reader.{fixed_value};
ghost use Rattle.ax_format.specs.InBounds.{InBounds, FixedInBounds, MembersInBounds};
ghost use Rattle.ax_format.specs.Tree as Tree;
ghost use Rattle.ax_format.specs.Widths.{width, members_width};
ghost use Rattle.ax_codec.specs.Meaning.{meanings, linked, fixed_of, part_of, linked_members, linked_parts};
ghost use Rattle.ax_codec.specs.Table.{IsTable, LinksWithin};
ghost use Rattle.ax_format.specs.At.{number_at};
ghost use Rattle.ax_walk.specs.Spots.{FindsMember, FindsNone, FindsPart, FindsNoPart};
ghost use Rattle.ax_walk.specs.Values.{IsOne};

use crate::notes::Notes;
use crate::start::Start;
use crate::units::{fixed_width, is_last_part, part_width, run};
use ax_codec::Node;
use ax_format::LastPart;

/// The link of a member, and the bit at which it begins. None comes exactly where there is no such member.
#[inline(always)]
pub(crate) fn find_member(
    nodes: &[Node],
    members: &[u32],
    at: u32,
    index: u32,
) -> Option<(u32, u32)>
    requires table { IsTable nodes.now }
    requires links { LinksWithin (length nodes.now) members.now }
    requires bounds { MembersInBounds (linked_members (meanings nodes.now) members.now) }
    requires room { at + members_width (linked_members (meanings nodes.now) members.now) ≤ 524256 }
    ensures found { IfSome result (λ r. FindsMember nodes.now (linked_members (meanings nodes.now) members.now) at index r.0 r.1) }
    ensures none { IfNone result (FindsNone (linked_members (meanings nodes.now) members.now) at index) }
{
    let mut left = members;
    let mut here = at;
    let mut number = index;
    while let Some((member, later)) = left.split_first() {
        if number == 0 {
            return Some((*member, here));
        }
        here += fixed_width(nodes, *member);
        number -= 1;
        left = later;
    }
    None
}

/// The link of a member of a part, and the bit at which it begins. None comes exactly where there is no such member.
pub(crate) fn part_member(nodes: &[Node], link: u32, at: u32, index: u32) -> Option<(u32, u32)>
    requires table { IsTable nodes.now }
    requires link { (0 < link) × (link ≤ length nodes.now) }
    requires bounds { MembersInBounds (part_of (linked (meanings nodes.now) link)) }
    requires room { at + members_width (part_of (linked (meanings nodes.now) link)) ≤ 524256 }
    ensures found { IfSome result (λ r. FindsMember nodes.now (part_of (linked (meanings nodes.now) link)) at index r.0 r.1) }
    ensures none { IfNone result (FindsNone (part_of (linked (meanings nodes.now) link)) at index) }
{
    match &nodes[link as usize - 1] {
        Node::Part { members, .. } => find_member(nodes, members.as_slice(), at, index),
        _ => None,
    }
}

/// The link of a part, and the bit at which it begins. None comes exactly where it isn't present.
pub(crate) fn find_part(
    nodes: &[Node],
    last: LastPart,
    parts: &[u32],
    body: &[u8],
    index: u32,
) -> Option<(u32, u32)>
    requires table { IsTable nodes.now }
    requires links { LinksWithin (length nodes.now) parts.now }
    requires bounds { InBounds (Tree.extended last (linked_parts (meanings nodes.now) parts.now)) }
    requires one { IsOne (Tree.extended last (linked_parts (meanings nodes.now) parts.now)) body.now }
    ensures found { IfSome result (λ r. FindsPart nodes.now last (linked_parts (meanings nodes.now) parts.now) body.now index r.0 r.1) }
    ensures none { IfNone result (FindsNoPart last (linked_parts (meanings nodes.now) parts.now) body.now index) }
{
    let mut notes = Notes::new();
    let mut left = parts;
    let mut here = 0;
    let mut number = index;
    while let Some((part, later)) = left.split_first() {
        let fx = last.fx_width(later.len());
        let start = Start { body, at: here };
        let Some(end) = run(start, part_width(nodes, *part) + fx, &mut notes) else {
            return None;
        };
        if number == 0 {
            return Some((*part, 8 * here));
        }
        if is_last_part(body, end, fx) {
            return None;
        }
        number -= 1;
        left = later;
        here = end;
    }
    None
}
