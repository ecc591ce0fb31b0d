//! The records that a filter holds of.
ghost use Rattle.std.specs.Prelude.{IfSome};
ghost use Rattle.ax_expressions.specs.Tests.{test_tree};
ghost use Rattle.ax_filter.specs.OfCode.{expression, catalogue_of};
ghost use Rattle.ax_filter.specs.Spotted.{IsSpotOf};
ghost use Rattle.ax_filter_work.specs.Laid.{SaysHolds};

use ax_canon::Keep;
use ax_codec::Codec;
use ax_filter::{Filter, Memo};
use ax_walk::{FixedSpot, RecordView};

/// Keeps the records of a codec that a filter holds of. What several of its tests ask of a record is looked for once; where one
/// comparison is all that it asks, it may be known where the number stands.
#[derive(Drop)]
pub(crate) struct Matching<'m, 'f, 'c> {
    pub(crate) filter: &'f Filter<'c>,
    pub(crate) codec: &'m Codec,
    pub(crate) memo: &'m mut Memo,
    pub(crate) spot: Option<FixedSpot>,
}

impl<'m, 'f, 'c> Keep for Matching<'m, 'f, 'c> {
    ghost may = { λ s one. IfSome s.spot (IsSpotOf (test_tree s.filter.now.test) one.now.codec.now) };

    ghost says = { λ s one answer. SaysHolds (catalogue_of s.filter.now) (expression s.filter.now) s.codec.now one answer };

    #[inline(always)]
    fn keeps(&mut self, one: &RecordView<'_, '_>) -> bool {
        let category = self.codec.category;
        match self.spot {
            Some(spot) => self.filter.holds_by_spot(category, one, spot),
            None => self.filter.holds_with(category, self.codec, one, self.memo),
        }
    }
}
