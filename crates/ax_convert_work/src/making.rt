//! What is made of a block: all of its memory is taken here, and nothing is written.
ghost use Rattle.std.specs.Prelude.{◌≡◌, IfOk, IfErr};
ghost use Rattle.ax_blocks.specs.Reader.{raw_tree};
ghost use Rattle.ax_convert_work.specs.Making.{IsReadBlock, NotMade};
ghost use Rattle.ax_convert_work.specs.OfCode.{IsMadeBy};
ghost use Rattle.ax_format.specs.OfCode.{HasNoFlaw};
ghost use Rattle.ax_format.specs.Plain.{spec_tree};
ghost use Rattle.ax_format.specs.Specification.{SpecTree};
ghost use Rattle.ax_rescale.specs.Converting.{IsConverter};

use crate::blocks::{DataBlocks, encode_converted};
use ax_blocks::WorkStop;
use ax_format::{Block, RawBlock, Spec};
use ax_rescale::{Converter, Misses};
use ax_uap::UapItems;
use ax_values::{DecodeError, decode_block};
use std::alloc::Global;

/// The data blocks of a converted block, and what its conversion missed.
pub(crate) struct Made {
    pub(crate) misses: Misses,
    pub(crate) blocks: DataBlocks,
}

impl Drop for Made {
    fn drop(self) {
        let Made {
            misses: _misses,
            blocks: _blocks,
        } = self;
    }
}

/// The block as it is read under the old edition alone: one of another category is opaque. Fault is the first fault of its body.
fn read_raw(alloc: Global, old: &Spec, raw: &RawBlock<'_>) -> Result<Block, WorkStop>
    requires { HasNoFlaw old.now }
    ensures read { IfOk result (IsReadBlock old.now (raw_tree raw.now)) }
    ensures stop { (new : SpecTree) → IfErr result (NotMade (spec_tree old.now) new (raw_tree raw.now)) }
{
    match decode_block(alloc, old, raw) {
        Ok(block) => Ok(block),
        Err(DecodeError::Fault(fault)) => Err(WorkStop::Fault(fault)),
        Err(DecodeError::OutOfMemory) => Err(WorkStop::OutOfMemory),
    }
}

/// The data blocks of the block in the new edition, whose items these are, and what its conversion misses; an opaque block as it
/// is. It is judged as a whole: Fault is the first fault of its body, and TooLong comes exactly where a converted record alone has
/// too many octets for a data block, with those of the first such record's, or 4,294,967,295 where there are more.
pub(crate) fn make(
    alloc: Global,
    converter: &Converter<'_>,
    items: &UapItems<'_>,
    raw: &RawBlock<'_>,
) -> Result<Made, WorkStop>
    requires is { IsConverter converter.now }
    requires items { items.now.spec.now ≡ converter.now.new.now }
    ensures made { IfOk result (λ made. IsMadeBy converter.now (raw_tree raw.now) made.misses made.blocks) }
    ensures stop { IfErr result (NotMade (spec_tree converter.now.old.now) (spec_tree converter.now.new.now) (raw_tree raw.now)) }
{
    let block = match read_raw(alloc, converter.old_edition(), raw) {
        Ok(block) => block,
        Err(stop) => return Err(stop),
    };
    let Ok(converted) = converter.convert(alloc, &block) else {
        return Err(WorkStop::OutOfMemory);
    };
    match encode_converted(alloc, items, converted.block) {
        Ok(blocks) => Ok(Made {
            misses: converted.misses,
            blocks,
        }),
        Err(stop) => Err(stop),
    }
}
