//! The parts of an extended or closed item.
ghost use Rattle.ax_walk.specs.Pieces.{ArePartsLeft, ArePartsLeft-prop};

use ax_codec::Codec;
use ax_format::LastPart;

/// The parts of an item that are left, an iterator of their octets, each with its FX bit where the part has one.
#[derive(Drop)]
pub struct PartSlices<'c, 'a> {
    pub(crate) codec: &'c Codec,
    pub(crate) last: LastPart,
    pub(crate) links: &'c [u32],
    pub(crate) left: &'a [u8],
    ghost parts: { ArePartsLeft codec.now.nodes last links.now left.now } by { ArePartsLeft-prop codec.now.nodes last links.now left.now },
}
