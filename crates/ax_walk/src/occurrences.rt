//! The occurrences of a counted, wide or by-FX item.
ghost use Rattle.ax_walk.specs.Pieces.{AreOccurrencesLeft, AreOccurrencesLeft-prop};

use ax_codec::Codec;

/// The occurrences of an item that are left, an iterator of their views.
#[derive(Drop)]
pub struct Occurrences<'c, 'a> {
    pub(crate) codec: &'c Codec,
    pub(crate) link: u32,
    pub(crate) by_fx: bool,
    pub(crate) count: u32,
    pub(crate) left: &'a [u8],
    ghost occurrences: { AreOccurrencesLeft codec.now link by_fx count left.now } by { AreOccurrencesLeft-prop codec.now link by_fx count left.now },
}
