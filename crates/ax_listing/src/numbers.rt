//! Numbers in some of the bits of a body.
ghost use Rattle.std.specs.Prelude.{◌≡◌, ◌+◌, ◌*◌, ◌^◌, ◌<◌, ◌≤◌, length};
ghost use Rattle.ax_format.specs.InBounds.{IsWidth};
ghost use Rattle.ax_listing.specs.Shown.{number_from};

use crate::position::BitPosition;
use ax_bits::{bits_at, short_bits_at};

/// The number that the `width` bits from there on spell, of at most 56.
#[inline(always)]
pub(crate) fn number_at(from: BitPosition<'_>, width: u32) -> u64
    requires width { (1 ≤ width) × (width ≤ 56) }
    requires within { from.at + width ≤ 8 * length from.body.now }
    ensures value { result ≡ number_from from.entry width }
    ensures fits { result < 2 ^ width }
{
    short_bits_at(from.body, from.at, width)
}

/// The number that the `width` bits from there on spell, of any width.
pub(crate) fn wide_number_at(from: BitPosition<'_>, width: u32) -> u128
    requires width { IsWidth width }
    requires within { from.at + width ≤ 8 * length from.body.now }
    ensures value { result ≡ number_from from.entry width }
    ensures fits { result < 2 ^ width }
{
    bits_at(from.body, from.at, width)
}
