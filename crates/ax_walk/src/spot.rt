//! Places in records, found by steps down the nodes.
ghost use Rattle.std.specs.Prelude.{◌≡◌, ◌+◌, ◌-◌, ◌*◌, ◌%◌, ◌^◌, ◌<◌, ◌≤◌, false, length, drop, take, IfSome, IfNone};
ghost use Rattle.ax_bits.specs.Bits.{bits, word};
ghost use Rattle.ax_format.specs.At.{value_at, number_of_value};
ghost use Rattle.ax_format.specs.InBounds.{InBounds, FixedInBounds};
ghost use Rattle.ax_format.specs.Reader.{fixed_value};
ghost use Rattle.ax_format.specs.Sizes.{longest_body};
ghost use Rattle.ax_format.specs.Tree as Tree;
ghost use Rattle.ax_format.specs.Widths.{width};
ghost use Rattle.ax_codec.specs.Meaning.{meanings, linked, fixed_of, linked_parts};
ghost use Rattle.ax_codec.specs.Table.{IsTable, LinksWithin};
ghost use Rattle.ax_walk.specs.Shown.{item_value};
ghost use Rattle.ax_walk.specs.Spots.{FindsFixed, FindsNothing, IsSpot};
ghost use Rattle.ax_walk.specs.Values.{IsOne, value_in};

use crate::item::ItemView;
use crate::members::{find_member, find_part, part_member};
use ax_bits::bits_at;
use ax_codec::Node;
use ax_format::LastPart;

/// What stands at a place.
#[derive(Drop)]
pub(crate) enum Spot<'a> {
    /// Nothing: the place isn't present.
    Missing,
    /// A value that isn't a number, nor of numbers: of an item that is no fixed kind.
    Whole,
    /// A value of the fixed kind that the link leads to, from that bit of the octets on.
    Fixed {
        link: u32,
        bit: u32,
        octets: &'a [u8],
    },
}

/// The link of the fixed kind at the end of these steps in another, of which the value begins at bit `at`, and the bit at
/// which its own begins. None comes exactly where the steps lead nowhere.
#[inline(always)]
pub(crate) fn find_fixed(nodes: &[Node], first: u32, at: u32, steps: &[u32]) -> Option<(u32, u32)>
    requires table { IsTable nodes.now }
    requires link { (0 < first) × (first ≤ length nodes.now) }
    requires bounds { FixedInBounds (fixed_of (linked (meanings nodes.now) first)) }
    requires room { at + width (fixed_of (linked (meanings nodes.now) first)) ≤ 524256 }
    ensures found { IfSome result (λ r. FindsFixed nodes.now (fixed_of (linked (meanings nodes.now) first)) at steps.now r.0 r.1) }
    ensures none { IfNone result (FindsNothing (fixed_of (linked (meanings nodes.now) first)) at steps.now) }
{
    let mut link = first;
    let mut here = at;
    let mut left = steps;
    while let Some((step, later)) = left.split_first() {
        let Node::Group { members, .. } = &nodes[link as usize - 1] else {
            return None;
        };
        let Some((member, bit)) = find_member(nodes, members.as_slice(), here, *step) else {
            return None;
        };
        link = member;
        here = bit;
        left = later;
    }
    Some((link, here))
}

/// What stands at the end of these steps in a value of a fixed kind that begins with the octets.
#[inline(always)]
fn fixed_spot<'a>(nodes: &[Node], link: u32, octets: &'a [u8], steps: &[u32]) -> Spot<'a>
    requires table { IsTable nodes.now }
    requires link { (0 < link) × (link ≤ length nodes.now) }
    requires bounds { FixedInBounds (fixed_of (linked (meanings nodes.now) link)) }
    requires octets { length octets.now ≤ longest_body }
    requires room { width (fixed_of (linked (meanings nodes.now) link)) ≤ 8 * length octets.now }
    ensures { IsSpot nodes.now result (value_at steps.now (fixed_value (fixed_of (linked (meanings nodes.now) link)) (bits octets.now))) }
{
    match find_fixed(nodes, link, 0, steps) {
        Some((link, bit)) => Spot::Fixed { link, bit, octets },
        None => Spot::Missing,
    }
}

/// What stands at the end of these steps in an extended or closed item.
#[inline]
fn part_spot<'a>(
    nodes: &[Node],
    last: LastPart,
    parts: &[u32],
    octets: &'a [u8],
    steps: &[u32],
) -> Spot<'a>
    requires table { IsTable nodes.now }
    requires links { LinksWithin (length nodes.now) parts.now }
    requires bounds { InBounds (Tree.extended last (linked_parts (meanings nodes.now) parts.now)) }
    requires one { IsOne (Tree.extended last (linked_parts (meanings nodes.now) parts.now)) octets.now }
    ensures { IsSpot nodes.now result (value_at steps.now (value_in (Tree.extended last (linked_parts (meanings nodes.now) parts.now)) octets.now)) }
{
    let Some((part, inside)) = steps.split_first() else {
        return Spot::Whole;
    };
    let Some((index, later)) = inside.split_first() else {
        return Spot::Missing;
    };
    let Some((link, bit)) = find_part(nodes, last, parts, octets, *part) else {
        return Spot::Missing;
    };
    let Some((member, at)) = part_member(nodes, link, bit, *index) else {
        return Spot::Missing;
    };
    match find_fixed(nodes, member, at, later) {
        Some((link, bit)) => Spot::Fixed { link, bit, octets },
        None => Spot::Missing,
    }
}

/// What stands at the end of these steps in a value: in one of a fixed kind without a call.
#[inline(always)]
pub(crate) fn spot_of<'a>(item: &ItemView<'_, 'a>, steps: &[u32]) -> Spot<'a>
    requires whole { item.now.by_fx ≡ false }
    ensures { IsSpot item.now.codec.now.nodes result (value_at steps.now (item_value item.now)) }
{
    let nodes = item.codec.nodes.as_slice();
    match &nodes[item.link as usize - 1] {
        Node::Element { .. } => fixed_spot(nodes, item.link, item.body, steps),
        Node::Group { .. } => fixed_spot(nodes, item.link, item.body, steps),
        _ => {
            // Of its own, so that the item isn't put into memory where it is of a fixed kind.
            let whole = ItemView {
                codec: item.codec,
                link: item.link,
                by_fx: item.by_fx,
                body: item.body,
            };
            spot_within(&whole, steps)
        }
    }
}

/// The same, of any kind.
#[cycle(spot_within)]
fn spot_within<'a>(item: &ItemView<'_, 'a>, steps: &[u32]) -> Spot<'a>
    requires whole { item.now.by_fx ≡ false }
    ensures { IsSpot item.now.codec.now.nodes result (value_at steps.now (item_value item.now)) }
{
    let nodes = item.codec.nodes.as_slice();
    match &nodes[item.link as usize - 1] {
        Node::Element { .. } => fixed_spot(nodes, item.link, item.body, steps),
        Node::Group { .. } => fixed_spot(nodes, item.link, item.body, steps),
        Node::Extended { last, parts } => {
            part_spot(nodes, *last, parts.as_slice(), item.body, steps)
        }
        Node::Compound { .. } => {
            let Some((slot, later)) = steps.split_first() else {
                return Spot::Whole;
            };
            match item.subitem(*slot) {
                Some(inner) => spot_within(&inner, later),
                None => Spot::Missing,
            }
        }
        _ => {
            if steps.is_empty() {
                Spot::Whole
            } else {
                Spot::Missing
            }
        }
    }
}

/// The number that `width` bits in one octet of `octets` spell, from bit `at` on.
#[inline(always)]
fn number_in_octet(octets: &[u8], at: u32, width: u32) -> u32
    requires width { (1 ≤ width) × (at % 8 + width ≤ 8) }
    requires within { at + width ≤ 8 * length octets.now }
    ensures number { word width result ≡ take width (drop at (bits octets.now)) }
    ensures below { result < 2 ^ width }
{
    let octet = octets[(at / 8) as usize] as u32;
    octet >> (8 - at % 8 - width) & ((1 << width) - 1)
}

/// The number that `width` bits of `octets` spell, from bit `at` on; where they are in one octet, by that alone.
#[inline(always)]
pub(crate) fn number_in(octets: &[u8], at: u32, width: u32) -> u128
    requires width { (1 ≤ width) × (width ≤ 128) }
    requires within { at + width ≤ 8 * length octets.now }
    ensures number { word width result ≡ take width (drop at (bits octets.now)) }
    ensures below { result < 2 ^ width }
{
    if at % 8 + width <= 8 {
        number_in_octet(octets, at, width) as u128
    } else {
        bits_at(octets, at, width)
    }
}

/// The number in a value of a fixed kind that begins at bit `at`. None comes exactly where it is no element.
#[inline(always)]
pub(crate) fn fixed_number(nodes: &[Node], link: u32, at: u32, body: &[u8]) -> Option<u128>
    requires table { IsTable nodes.now }
    requires link { (0 < link) × (link ≤ length nodes.now) }
    requires bounds { FixedInBounds (fixed_of (linked (meanings nodes.now) link)) }
    requires body { length body.now ≤ longest_body }
    requires room { at + width (fixed_of (linked (meanings nodes.now) link)) ≤ 8 * length body.now }
    ensures { result ≡ number_of_value (fixed_value (fixed_of (linked (meanings nodes.now) link)) (drop at (bits body.now))) }
{
    let Node::Element { width } = &nodes[link as usize - 1] else {
        return None;
    };
    Some(number_in(body, at, *width))
}
