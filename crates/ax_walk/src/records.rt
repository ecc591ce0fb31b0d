//! Records of a body, one after the other.
ghost use Rattle.std.specs.Prelude.{◌≡◌, ◌≤◌, false, length, IfSome, IfNone};
ghost use Rattle.ax_format.specs.Sizes.{longest_body};
ghost use Rattle.ax_codec.specs.Table.{record_kind_at};
ghost use Rattle.ax_walk.specs.Pieces.{ArePieces, ArePieces-prop};

use ax_codec::Codec;

/// The records of a body that are left, an iterator of their views.
#[derive(Drop)]
pub struct Records<'c, 'a> {
    pub(crate) codec: &'c Codec,
    pub(crate) count: u32,
    pub(crate) left: &'a [u8],
    ghost records: { ArePieces false (record_kind_at codec.now.nodes codec.now.slots) count left.now } by { ArePieces-prop false (record_kind_at codec.now.nodes codec.now.slots) count left.now },
    ghost size: { length left.now ≤ longest_body },
}
