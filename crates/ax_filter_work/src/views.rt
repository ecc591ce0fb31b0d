//! `filter` over views.
ghost use Rattle.std.specs.Prelude.{◌≡◌, length, IfOk};
ghost use Rattle.ax_filter.specs.OfCode.{expression, catalogue_of};
ghost use Rattle.ax_filter_work.specs.FilterCommand.{filter_command};
ghost use Rattle.ax_filter_work.specs.Laid.{command_of};
ghost use Rattle.ax_format.specs.Sizes.{longest_block};
ghost use Rattle.ax_canon.specs.CategoryRows.{AreCategoryRows};
ghost use Rattle.ax_codec.specs.Standing.{StandForEach};

use crate::output::lay_matching;
use ax_blocks::{BlockWork, WorkStop, write_piece};
use ax_canon::{CategoryRows, blank_output};
use ax_endpoints::Sink;
use ax_filter::{Filter, Memo};
use ax_format::RawBlock;
use ax_tables::Codecs;
use std::alloc::{AllocError, Global};

/// `filter` under the catalogue of a filter, by the codecs of its specifications: the canonical form of the records that
/// the filter holds of. A block is judged, and its records are asked for and written, in one walk over its octets; what is
/// written stands in one output, as long as the longest block, and what questions find in a record in one memo.
pub struct FilterViews<'f, 'c> {
    filter: &'f Filter<'c>,
    rows: CategoryRows<'f>,
    output: Vec<u8>,
    memo: Memo,
    ghost room: { length output.items ≡ longest_block },
}

impl Drop for FilterViews<'_, '_> {
    fn drop(self) {
        let FilterViews {
            filter: _filter,
            rows: _rows,
            output: _output,
            memo: _memo,
        } = self;
    }
}

impl<'f, 'c> FilterViews<'f, 'c> {
    /// `filter` by that filter and the codecs of its catalogue. What it takes of memory is taken here.
    pub fn new(
        alloc: Global,
        filter: &'f Filter<'c>,
        codecs: &'f Codecs,
    ) -> Result<FilterViews<'f, 'c>, AllocError>
        requires { StandForEach codecs.now.codecs (catalogue_of filter.now) }
        ensures command { IfOk result (λ work. ⟦<FilterViews<'f, 'c> as BlockWork>⟧.command work ≡ command_of filter.now) }
        ensures sound { IfOk result (λ work. ⟦<FilterViews<'f, 'c> as BlockWork>⟧.sound work) }
    {
        let rows = CategoryRows::of(alloc, codecs)?;
        let output = blank_output(alloc)?;
        let memo = filter.memo(alloc)?;
        Ok(FilterViews {
            filter,
            rows,
            output,
            memo,
        })
    }
}

impl<'f, 'c> BlockWork for FilterViews<'f, 'c> {
    ghost use Rattle.std.specs.Prelude.{false};

    ghost command = { λ s. filter_command (expression s.filter.now) (catalogue_of s.filter.now) };

    ghost sound = { λ s. StandForEach s.rows.codecs.now.codecs (catalogue_of s.filter.now) × AreCategoryRows s.rows };

    ghost remembers = { λ first s raws. Unit {0} };

    ghost takes_memory = { false };

    fn take<R: Sink, K: Sink>(
        &mut self,
        _number: u64,
        raw: &RawBlock<'_>,
        _report: &mut R,
        out: &mut K,
    ) -> Result<(), WorkStop> {
        match self.rows.get(raw.category) {
            Some(records) => {
                let laid = lay_matching(
                    self.filter,
                    records,
                    raw.body,
                    &mut self.memo,
                    &mut self.output,
                );
                match laid {
                    Ok(count) => write_piece(out, &self.output[..count as usize]),
                    Err(fault) => Err(WorkStop::Fault(fault)),
                }
            }
            None => Ok(()),
        }
    }
}
