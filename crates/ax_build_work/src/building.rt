//! From a line to the octets of its block.
ghost use Rattle.std.specs.Prelude.{◌≡◌, ◌≤◌, ◌^◌, length, IfOk, IfErr};
ghost use Rattle.ax_block_reader.specs.BlockTexts.{canonical_length};
ghost use Rattle.ax_text_form.specs.CatalogueBlocks.{IsBlockOf};
ghost use Rattle.ax_build_work.specs.BuildCommand.{IsBuiltOf, canon_under};
ghost use Rattle.ax_build_work.specs.Stops.{AnswersMade, NotBuilt, StopsLine};
ghost use Rattle.ax_lines.specs.Ending.{longest_line};
ghost use Rattle.ax_format.specs.Plain.{catalogue_tree, block_tree};
ghost use Rattle.ax_format.specs.Sizes.{longest_block};

use crate::fault::BuildStop;
use crate::opaque::opaque_block;
use crate::printed::printed_octets;
use ax_block_reader::read_block_over;
use ax_format::Block;
use ax_text_lines::PrintedUaps;
use ax_tokens::{Tokens, tokens};
use ax_uap::CatalogueItems;
use ax_values::encode_of_length;
use std::alloc::{AllocError, Global};

/// How deep the braces of a line may nest.
const DEEPEST: u32 = 20;

/// The canonical octets of a block that fits the catalogue. There are so many of them, no more than a block may have.
fn canonical_octets(
    alloc: Global,
    items: &CatalogueItems<'_>,
    block: &Block,
    count: usize,
) -> Result<Vec<u8>, AllocError>
    requires fits { IsBlockOf (catalogue_tree items.now) (block_tree block.now) }
    requires count { count ≡ canonical_length (catalogue_tree items.now) (block_tree block.now) }
    requires within { count ≤ longest_block }
    ensures { IfOk result (λ made. made.items ≡ canon_under (catalogue_tree items.now) (block_tree block.now)) }
{
    match block {
        Block::Opaque { category, octets } => opaque_block(alloc, *category, octets.as_slice()),
        Block::Read { category, .. } => match items.get(*category) {
            Some(uap) => encode_of_length(alloc, uap, block, count),
            None => unreachable!(),
        },
    }
}

/// The canonical octets of the block whose text the tokens are.
fn built(
    alloc: Global,
    items: &CatalogueItems<'_>,
    tokens: &Tokens<'_>,
) -> Result<Vec<u8>, BuildStop>
    ensures octets { IfOk result (λ made. IsBuiltOf (catalogue_tree items.now) tokens.now made.items) }
    ensures stop { IfErr result (NotBuilt (catalogue_tree items.now) tokens.now) }
{
    let found = read_block_over(alloc, items, tokens)?;
    let octets = canonical_octets(alloc, items, &found.block, found.octets)?;
    Ok(octets)
}

/// The canonical octets of the block whose text the line is, or None where the line has no token. Lines without comments are mostly
/// read without a list of tokens, by the tables of the same catalogue and in the room that is lent; the others, and those that are refused, token by token.
#[tactic(auto, using(crate::proofs::Built::lines_built))]
pub(crate) fn line_octets(
    alloc: Global,
    items: &CatalogueItems<'_>,
    tables: &PrintedUaps<'_>,
    line: &[u8],
    room: &mut [u8],
) -> Result<Option<Vec<u8>>, BuildStop>
    requires same { tables.now ≡ items.now }
    requires line { length line.now ≤ longest_line }
    requires room { length room.old ≤ 2 ^ 20 }
    ensures answer { IfOk result (AnswersMade (catalogue_tree items.now) line.now) }
    ensures stop { IfErr result (StopsLine (catalogue_tree items.now) line.now) }
{
    if let Some(printed) = printed_octets(alloc, tables, line, room)? {
        return Ok(Some(printed));
    }
    let found = tokens(alloc, line, DEEPEST)?;
    if found.count() == 0 {
        return Ok(None);
    }
    let octets = built(alloc, items, &found)?;
    Ok(Some(octets))
}
