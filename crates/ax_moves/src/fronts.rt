//! The octets of the first parts of an extended item.
ghost use Rattle.std.specs.Prelude.{◌≡◌, ◌+◌, ◌/◌, ◌<◌, ◌≤◌, length};
ghost use Rattle.ax_moves.specs.Fronts.{FrontIs};
ghost use Rattle.ax_format.specs.Widths.{members_width};
ghost use Rattle.ax_codec.specs.Meaning.{linked, meanings, part_of};
ghost use Rattle.ax_codec.specs.Table.{IsTable, LinksWithin};

use ax_codec::Node;

/// The octets of the part that a link leads to, with its FX bit.
#[inline]
#[tactic(auto, using(ax_codec::proofs::Tables::widths))]
fn part_octets(nodes: &[Node], link: u32) -> usize
    requires table { IsTable nodes.now }
    requires link { (0 < link) × (link ≤ length nodes.now) }
    ensures { result ≡ (members_width (part_of (linked (meanings nodes.now) link)) + 1) / 8 }
{
    (nodes[link as usize - 1].part_width() as usize + 1) / 8
}

/// How many of so many octets of an extended item are those of its first `count` parts, of those that the links lead to. None
/// comes exactly where no others are left, so that the item has no more parts than these.
pub fn front(nodes: &[Node], links: &[u32], count: u32, octets: usize) -> Option<usize>
    requires table { IsTable nodes.now }
    requires links { LinksWithin (length nodes.now) links.now }
    requires some { 0 < octets }
    ensures { FrontIs nodes.now links.now count octets result }
{
    let count = count as usize;
    if count >= links.len() {
        return None;
    }
    let mut end = 0;
    for index in 0..count {
        let size = part_octets(nodes, links[index]);
        if octets - end <= size {
            return None;
        }
        end += size;
    }
    Some(end)
}
