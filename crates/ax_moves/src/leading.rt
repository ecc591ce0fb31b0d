//! Whether something stands where slot numbers lead.
ghost use Rattle.std.specs.Prelude.{◌≡◌, IfSome};
ghost use Rattle.ax_relation.specs.Standing.{is_there, value_below};
ghost use Rattle.ax_moves.specs.Lost.{HasParts};
ghost use Rattle.ax_format.specs.Placed.{has_part, has_part_where};
ghost use Rattle.ax_walk.specs.Shown.{item_value, record_entries};

use ax_format::Place;
use ax_walk::{ItemView, RecordView};

/// Whether an item has the part of that number, or there is no question of a part.
pub fn has_part(item: &ItemView<'_, '_>, part: Option<u32>) -> bool
    ensures { result ≡ has_part part (item_value item.now) }
{
    let Some(number) = part else {
        return true;
    };
    // Each part has an octet at least.
    if item.octets().len() <= number as usize {
        return false;
    }
    let mut later = item.parts();
    let mut before = number;
    while later.next().is_some() {
        if before == 0 {
            return true;
        }
        before -= 1;
    }
    false
}

/// How many parts of an item are present.
fn count_parts(item: &ItemView<'_, '_>) -> u32
    ensures { HasParts item.now result }
{
    let mut later = item.parts();
    let mut count = 0;
    while let Some(_) = later.next() {
        count += 1;
    }
    count
}

/// The same as `has_part`; the parts are counted at most once for several calls.
pub fn has_counted(item: &ItemView<'_, '_>, part: Option<u32>, counted: &mut Option<u32>) -> bool
    requires counted { IfSome counted.old (HasParts item.now) }
    ensures has { result ≡ has_part part (item_value item.now) }
    ensures counted { IfSome counted.new (HasParts item.now) }
{
    let Some(number) = part else {
        return true;
    };
    // Each part has an octet at least.
    if item.octets().len() <= number as usize {
        return false;
    }
    let count = match *counted {
        Some(count) => count,
        None => count_parts(item),
    };
    *counted = Some(count);
    number < count
}

/// Whether slot numbers lead on from an item, to one that has the part.
#[cycle(leads_on)]
pub fn leads_on(item: &ItemView<'_, '_>, steps: &[u32], part: Option<u32>) -> bool
    ensures { result ≡ has_part_where part (value_below steps.now (item_value item.now)) }
{
    let Some((step, later)) = steps.split_first() else {
        return has_part(item, part);
    };
    match item.subitem(*step) {
        Some(inner) => leads_on(&inner, later, part),
        None => false,
    }
}

/// Whether there is an entry where slot numbers lead, with the part.
pub fn is_there(one: &RecordView<'_, '_>, place: &Place, part: Option<u32>) -> bool
    ensures { result ≡ is_there place.now part (record_entries one.now) }
{
    match one.item(place.frn) {
        Some(item) => leads_on(&item, place.steps.as_slice(), part),
        None => false,
    }
}
