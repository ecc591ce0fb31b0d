//! What records of a codec are walked over by.
ghost use Rattle.std.specs.Prelude.{◌≡◌, IfSome};
ghost use Rattle.ax_walk.specs.RecordRows.{AreRecordRows, AreRowsOfCodec};

use crate::compound_rows::ByRows;
use crate::table::LinkedSlots;
use ax_codec::Codec;
use ax_rows::Rows;

/// The rows of a codec's slots, and what walks over their values.
#[derive(Clone, Copy)]
pub(crate) struct RowWalk<'c> {
    pub(crate) rows: Rows<'c>,
    pub(crate) values: ByRows<'c>,
}

impl<'c> RowWalk<'c> {
    /// Those of a codec. None comes where it has none.
    pub(crate) fn of(codec: &'c Codec) -> Option<RowWalk<'c>>
        ensures { IfSome result (AreRowsOfCodec codec.now) }
    {
        let rows = codec.nodes.rows_for(codec.slots.as_slice())?;
        let values = ByRows::of(codec)?;
        Some(RowWalk { rows, values })
    }
}

/// A codec, and what its records are walked over by, looked up once for many of them: its slots, and the rows of these, if it has
/// some.
#[derive(Clone, Copy)]
pub struct RecordRows<'c> {
    pub codec: &'c Codec,
    pub(crate) slots: LinkedSlots<'c>,
    pub(crate) by_rows: Option<RowWalk<'c>>,
}

impl<'c> RecordRows<'c> {
    /// Those of a codec.
    pub fn of(codec: &'c Codec) -> RecordRows<'c>
        ensures codec { result.codec.now ≡ codec.now }
        ensures rows { AreRecordRows result }
    {
        RecordRows {
            codec,
            slots: LinkedSlots::of(codec),
            by_rows: RowWalk::of(codec),
        }
    }
}
