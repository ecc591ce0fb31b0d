//! The value of an item, a subitem or an occurrence, in its octets.
ghost use Rattle.ax_walk.specs.Values.{IsItem, IsItem-prop};

use ax_codec::Codec;

/// A view of one value of a kind: of an item, a subitem or an occurrence. It is the value that the octets spell.
///
/// An occurrence by FX is a value of a fixed kind, and its octets have the FX bit after it.
#[derive(Drop)]
pub struct ItemView<'c, 'a> {
    pub(crate) codec: &'c Codec,
    pub(crate) link: u32,
    pub(crate) by_fx: bool,
    pub(crate) body: &'a [u8],
    ghost item: { IsItem codec.now link by_fx body.now } by { IsItem-prop codec.now link by_fx body.now },
}
