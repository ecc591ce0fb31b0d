//! A block split into blocks of at most 65,535 octets.
ghost use Rattle.std.specs.Prelude.{◌≡◌, ◌<◌, length, IfOk, IfErr};
ghost use Rattle.std.specs.List.{AllByRecursion};
ghost use Rattle.ax_lists.specs.Sizes.{list_bound};
ghost use Rattle.ax_format.specs.OfCode.{BlockFits, HasNoFlaw};
ghost use Rattle.ax_format.specs.Plain.{records_tree};
ghost use Rattle.ax_format.specs.declared.record.Block.TheVariants as BlockOf;
ghost use Rattle.ax_rescale.specs.Splits.{ArePieces, AreThere, IsNotSplit, IsPiece, IsRead, pieces_of, records_in};

use crate::error::SplitError;
use crate::fronts::fronts;
use ax_format::{Block, Record, Records, Spec};
use ax_lists::Sequence;
use std::alloc::{AllocError, Global};

/// The blocks that a block is split into, in order.
pub type Pieces = Sequence<Block>;

/// A list of copies of the records. Takes their room once.
fn copies(alloc: Global, records: &[Record]) -> Result<Records, AllocError>
    requires { length records.now < list_bound }
    ensures { IfOk result (λ made. made ≡ records.now) }
{
    let mut made = Records::with_capacity(alloc, records.len() as u32)?;
    for one in records {
        made.push(one.copy(alloc)?)?;
    }
    Ok(made)
}

/// Blocks of so many of the records each. The records are copied, since a list lends its members and gives none of them away.
fn cut(
    alloc: Global,
    category: u8,
    records: &[Record],
    counts: &[u32],
) -> Result<Pieces, AllocError>
    requires records { length records.now < list_bound }
    requires counts { length counts.now < list_bound }
    requires there { AreThere counts.now records.now }
    ensures { IfOk result (λ made. made ≡ pieces_of category counts.now records.now) }
{
    let mut pieces = Pieces::new(alloc);
    let mut rest = records;
    for count in counts {
        let (front, later) = rest.split_at(*count as usize);
        let records = copies(alloc, front)?;
        pieces.push(Block::Read { category, records })?;
        rest = later;
    }
    Ok(pieces)
}

/// The records of a block that fits, as blocks of its category.
fn split_records(
    alloc: Global,
    spec: &Spec,
    category: u8,
    records: Records,
) -> Result<Pieces, SplitError>
    requires no_flaw { HasNoFlaw spec.now }
    requires block_fits { BlockFits spec.now (BlockOf.Read category records) }
    ensures pieces { IfOk result (ArePieces spec.now (BlockOf.Read category records)) }
    ensures each { IfOk result (AllByRecursion (IsPiece spec.now)) }
    ensures too_long { IfErr result (IsNotSplit spec.now (records_tree records)) }
{
    let counts = fronts(alloc, spec, records.as_slice())?;
    if counts.count() == 1 {
        let mut pieces = Pieces::new(alloc);
        pieces.push(Block::Read { category, records })?;
        return Ok(pieces);
    }
    let pieces = cut(alloc, category, records.as_slice(), counts.as_slice())?;
    Ok(pieces)
}

/// A block of records that fits a specification without flaw, as blocks of at most 65,535 octets in their canonical form, in
/// order: each has as many of the next records as it can. RecordTooLong comes exactly where a record alone has more, whatever
/// the other records are. All records are judged before a block is made, and the octets of each are counted once. A block that
/// is short enough is given back as it is; the records of a longer one are copied into its blocks.
pub fn split(alloc: Global, spec: &Spec, block: Block) -> Result<Pieces, SplitError>
    requires no_flaw { HasNoFlaw spec.now }
    requires block_fits { BlockFits spec.now block }
    requires read { IsRead block }
    ensures pieces { IfOk result (ArePieces spec.now block) }
    ensures each { IfOk result (AllByRecursion (IsPiece spec.now)) }
    ensures too_long { IfErr result (IsNotSplit spec.now (records_in block)) }
{
    match block {
        Block::Read { category, records } => split_records(alloc, spec, category, records),
        // The block has records.
        Block::Opaque { .. } => unreachable!(),
    }
}
