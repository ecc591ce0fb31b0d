//! Numbers in items of fixed octets, of which it is known where they stand.
ghost use Rattle.std.specs.Prelude.{◌≡◌, IfSome};
ghost use Rattle.ax_format.specs.At.{At};
ghost use Rattle.ax_walk.specs.FixedSpots.{IsFixedSpot};
ghost use Rattle.ax_walk.specs.Shown.{record_entries};

use crate::finding::{EARLY, find_early};
use crate::record::RecordView;
use crate::spot::{find_fixed, number_in};
use ax_codec::{Codec, Node};
use ax_format::Place;

/// Where the number of a place stands in the place's item, which is of fixed octets: so many bits, from that bit of the item on.
#[derive(Clone, Copy)]
pub struct FixedSpot {
    pub(crate) bit: u32,
    pub(crate) width: u32,
}

impl FixedSpot {
    /// That of a place in records of a codec. None comes where the place's item isn't of a fixed kind, and where no number stands there.
    pub fn of(codec: &Codec, place: &Place) -> Option<FixedSpot>
        ensures { IfSome result (IsFixedSpot codec.now place.now) }
    {
        let nodes = codec.nodes.as_slice();
        let links = codec.slots.as_slice();
        if place.frn == 0 || place.frn as usize > links.len() {
            return None;
        }
        let link = links[place.frn as usize - 1];
        if link == 0 {
            return None;
        }
        if nodes[link as usize - 1].fixed_width() == 0 {
            return None;
        }
        let (last, bit) = find_fixed(nodes, link, 0, place.steps.as_slice())?;
        let Node::Element { width } = &nodes[last as usize - 1] else {
            return None;
        };
        Some(FixedSpot { bit, width: *width })
    }
}

impl<'c, 'a> RecordView<'c, 'a> {
    /// The number at a place, as `number` gives it, where it is known where that stands in the place's item.
    #[inline(always)]
    pub fn number_by(&self, place: &Place, spot: FixedSpot) -> Option<u128>
        requires { IsFixedSpot self.now.codec.now place.now spot }
        ensures { result ≡ At (record_entries self.now) place.now }
    {
        if place.frn <= EARLY && self.field > 0 {
            let slots = self.codec.slots.as_slice();
            let Some(item) = find_early(self.codec, slots, self.body, self.field, place.frn) else {
                return None;
            };
            return Some(number_in(item.body, spot.bit, spot.width));
        }
        self.number(place)
    }
}
