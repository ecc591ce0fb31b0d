//! Converted records as data blocks.
ghost use Rattle.std.specs.Prelude.{◌≡◌, ◌≤◌, IfOk, IfErr, map};
ghost use Rattle.std.specs.List.{AllByRecursion};
ghost use Rattle.ax_convert_work.specs.ConvertCommand.{told_octets};
ghost use Rattle.ax_convert_work.specs.Making.{AreDataBlocks, NoDataBlocks, ShortIfOpaque, all_octets, octets_in};
ghost use Rattle.ax_format.specs.OfCode.{BlockFits, HasNoFlaw, block_length, block_octets};
ghost use Rattle.ax_format.specs.Plain.{block_tree, spec_tree};
ghost use Rattle.ax_format.specs.Sizes.{longest_block};
ghost use Rattle.ax_rescale.specs.Splits.{ArePieces, IsPiece, IsRead};

use ax_blocks::WorkStop;
use ax_format::{Block, Spec, canon_length};
use ax_lists::Sequence;
use ax_rescale::{Pieces, SplitError, split};
use ax_uap::UapItems;
use ax_values::encode_of_length;
use std::alloc::{AllocError, Global};

/// The octets of a data block.
pub(crate) struct DataBlock {
    pub(crate) octets: Vec<u8>,
}

impl Drop for DataBlock {
    fn drop(self) {
        let DataBlock { octets: _octets } = self;
    }
}

/// Data blocks, in order.
pub(crate) type DataBlocks = Sequence<DataBlock>;

/// The number of octets that is told of a record that is too long: the greatest stands for every greater one.
fn told(octets: u64) -> u32
    ensures { result ≡ told_octets octets }
{
    if octets > u32::MAX as u64 {
        return u32::MAX;
    }
    octets as u32
}

/// The blocks that the records of a block are split into. TooLong comes exactly where a record alone has too many octets for a
/// data block.
#[tactic(auto, using(crate::proofs::DataBlocks::encoding))]
fn split_block(alloc: Global, spec: &Spec, block: Block) -> Result<Pieces, WorkStop>
    requires no_flaw { HasNoFlaw spec.now }
    requires block_fits { BlockFits spec.now block }
    requires read { IsRead block }
    ensures pieces { IfOk result (ArePieces spec.now block) }
    ensures each { IfOk result (AllByRecursion (IsPiece spec.now)) }
    ensures stop { IfErr result (NoDataBlocks (spec_tree spec.now) (block_tree block)) }
{
    match split(alloc, spec, block) {
        Ok(pieces) => Ok(pieces),
        Err(SplitError::RecordTooLong { octets }) => Err(WorkStop::TooLong {
            octets: told(octets),
        }),
        Err(SplitError::OutOfMemory) => Err(WorkStop::OutOfMemory),
    }
}

/// The octets of a block that is short enough for a data block.
fn data_block(alloc: Global, items: &UapItems<'_>, block: &Block) -> Result<DataBlock, AllocError>
    requires no_flaw { HasNoFlaw items.now.spec.now }
    requires block_fits { BlockFits items.now.spec.now block.now }
    requires short { block_length items.now.spec.now block.now ≤ longest_block }
    ensures { IfOk result (λ made. octets_in made ≡ block_octets items.now.spec.now block.now) }
{
    let length = canon_length(items.spec(), block);
    let octets = encode_of_length(alloc, items, block, length as usize)?;
    Ok(DataBlock { octets })
}

/// The octets of each of these blocks.
fn data_blocks(
    alloc: Global,
    items: &UapItems<'_>,
    pieces: &Pieces,
) -> Result<DataBlocks, AllocError>
    requires no_flaw { HasNoFlaw items.now.spec.now }
    requires pieces { AllByRecursion (IsPiece items.now.spec.now) pieces.now }
    ensures { IfOk result (λ made. map octets_in made ≡ map (block_octets items.now.spec.now) pieces.now) }
{
    let mut made = DataBlocks::new(alloc);
    for piece in pieces.as_slice() {
        made.push(data_block(alloc, items, piece)?)?;
    }
    Ok(made)
}

/// The data blocks of a block of records.
#[tactic(auto, using(crate::proofs::DataBlocks::encoding))]
fn encode_records(alloc: Global, items: &UapItems<'_>, block: Block) -> Result<DataBlocks, WorkStop>
    requires no_flaw { HasNoFlaw items.now.spec.now }
    requires block_fits { BlockFits items.now.spec.now block }
    requires read { IsRead block }
    ensures blocks { IfOk result (AreDataBlocks (spec_tree items.now.spec.now) (block_tree block)) }
    ensures stop { IfErr result (NoDataBlocks (spec_tree items.now.spec.now) (block_tree block)) }
{
    let pieces = match split_block(alloc, items.spec(), block) {
        Ok(pieces) => pieces,
        Err(stop) => return Err(stop),
    };
    match data_blocks(alloc, items, &pieces) {
        Ok(blocks) => Ok(blocks),
        Err(_) => Err(WorkStop::OutOfMemory),
    }
}

/// The one data block of an opaque block.
fn encode_opaque(
    alloc: Global,
    items: &UapItems<'_>,
    block: &Block,
) -> Result<DataBlocks, AllocError>
    requires no_flaw { HasNoFlaw items.now.spec.now }
    requires block_fits { BlockFits items.now.spec.now block.now }
    requires short { block_length items.now.spec.now block.now ≤ longest_block }
    ensures { IfOk result (λ made. all_octets made ≡ block_octets items.now.spec.now block.now) }
{
    let mut made = DataBlocks::new(alloc);
    made.push(data_block(alloc, items, block)?)?;
    Ok(made)
}

/// The data blocks of a converted block, which fits the edition of these items.
pub(crate) fn encode_converted(
    alloc: Global,
    items: &UapItems<'_>,
    block: Block,
) -> Result<DataBlocks, WorkStop>
    requires no_flaw { HasNoFlaw items.now.spec.now }
    requires block_fits { BlockFits items.now.spec.now block }
    requires short { ShortIfOpaque (spec_tree items.now.spec.now) (block_tree block) }
    ensures blocks { IfOk result (AreDataBlocks (spec_tree items.now.spec.now) (block_tree block)) }
    ensures stop { IfErr result (NoDataBlocks (spec_tree items.now.spec.now) (block_tree block)) }
{
    match &block {
        Block::Read { .. } => encode_records(alloc, items, block),
        Block::Opaque { .. } => match encode_opaque(alloc, items, &block) {
            Ok(blocks) => Ok(blocks),
            Err(_) => Err(WorkStop::OutOfMemory),
        },
    }
}
