//! A record, in its octets.
ghost use Rattle.ax_walk.specs.Fields.{IsFieldTold, IsFieldTold-prop};
ghost use Rattle.ax_walk.specs.Values.{IsRecord, IsRecord-prop};

use ax_codec::Codec;

/// A view of a record: the record that the octets spell.
#[derive(Drop)]
pub struct RecordView<'c, 'a> {
    pub(crate) codec: &'c Codec,
    pub(crate) body: &'a [u8],
    /// How many octets its presence field has, where the walk over it told that; else 0.
    pub(crate) field: u32,
    ghost record_octets: { IsRecord codec.now body.now } by { IsRecord-prop codec.now body.now },
    ghost told: { IsFieldTold codec.now body.now field } by { IsFieldTold-prop codec.now body.now field },
}

/// Where the walk over a record ends.
#[derive(Clone, Copy)]
pub(crate) struct Walked {
    /// How many octets its presence field has, where the walk told that; else 0.
    pub(crate) field: u32,
    /// The octet after it.
    pub(crate) end: u32,
}
