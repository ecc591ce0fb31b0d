//! Values of which a few octets tell where they end, without a look at their nodes.
ghost use Rattle.std.specs.Prelude.{◌≡◌, Bool, IfSome};
ghost use Rattle.ax_format.specs.InBounds.{InBounds};
ghost use Rattle.ax_format.specs.Tree.{KindTree};
ghost use Rattle.ax_codec.specs.Extents.{kind_extent};
ghost use Rattle.ax_codec.specs.declared.extent.Extent.TheVariants.{OctetParts, Occurrences};
ghost use Rattle.ax_walk.specs.Walking.{WalksFrom};

use crate::start::Start;
use ax_codec::Extent;
use ax_format::Counter;
use ax_fspec::count_at;

/// The octet after an extended item of which the first `most` parts have one octet: the first of these with a clear FX bit is its last.
/// None says nothing.
#[inline(always)]
fn octet_parts_end(start: Start<'_>, most: u32) -> Option<u32>
    ensures { IfSome result (λ end. (k : KindTree) → InBounds k → kind_extent k ≡ OctetParts most → (least : Bool) → WalksFrom k start.entry end least) }
{
    let body = start.body;
    let mut here = start.at;
    for _ in 0..most {
        if here as usize >= body.len() {
            return None;
        }
        let octet = body[here as usize];
        here += 1;
        if octet & 1 == 0 {
            return Some(here);
        }
    }
    None
}

/// The octet after a counter of one octet, and as many occurrences as it says, of so many octets each. None says nothing.
#[inline(always)]
fn occurrences_end(start: Start<'_>, octets: u32) -> Option<u32>
    ensures { IfSome result (λ end. (k : KindTree) → InBounds k → kind_extent k ≡ Occurrences octets → (least : Bool) → WalksFrom k start.entry end least) }
{
    let body = start.body;
    let count = count_at(body, start.at, Counter::One)?;
    let end = start.at as u64 + 1 + count as u64 * octets as u64;
    if end > body.len() as u64 {
        return None;
    }
    Some(end as u32)
}

/// The octet after a value of a kind of that extent. None says nothing.
#[inline(always)]
pub(crate) fn extent_end(extent: Extent, start: Start<'_>) -> Option<u32>
    ensures { IfSome result (λ end. (k : KindTree) → InBounds k → kind_extent k ≡ extent → (least : Bool) → WalksFrom k start.entry end least) }
{
    match extent {
        Extent::OctetParts { most } => octet_parts_end(start, most),
        Extent::Occurrences { octets } => occurrences_end(start, octets),
        Extent::ByNode => None,
    }
}
