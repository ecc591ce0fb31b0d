//! From a line's tokens to the block whose text they are.
ghost use Rattle.std.specs.Prelude.{◌≡◌, IfOk, IfErr};
ghost use Rattle.ax_format.specs.Lengths.{capped};
ghost use Rattle.ax_format.specs.Plain.{catalogue_tree, block_tree};
ghost use Rattle.ax_block_reader.specs.BlockTexts.{canonical_length, Spells, IsTextOf, IsFault, IsBad};
ghost use Rattle.ax_text_form.specs.CatalogueBlocks.{IsBlockOf};

use crate::blocks::block;
use crate::catalogue_items::items_of;
use crate::error::TextError;
use ax_check::Catalogue;
use ax_format::Block;
use ax_tokens::{Reader, Stopped, Tokens};
use ax_uap::CatalogueItems;
use ax_values::length_over;
use std::alloc::Global;

/// The block whose text the tokens are, of whatever length.
fn spelled_block(
    alloc: Global,
    items: &CatalogueItems<'_>,
    tokens: &Tokens<'_>,
) -> Result<Block, TextError>
    ensures spells { IfOk result (λ found. Spells (catalogue_tree items.now) tokens.now (block_tree found)) }
    ensures bad { IfErr result (IsBad (catalogue_tree items.now) tokens.now) }
{
    let mut reader = Reader::new(tokens);
    match block(alloc, &mut reader, items) {
        Ok(found) => {
            let left = reader.count();
            if left > 0 {
                return Err(TextError::BadToken {
                    token: tokens.count() - left,
                });
            }
            Ok(found)
        }
        Err(Stopped::Bad) => Err(TextError::BadToken {
            token: tokens.count() - reader.count(),
        }),
        Err(Stopped::OutOfMemory) => Err(TextError::OutOfMemory),
    }
}

/// The octets of the block's canonical form, capped at 2^64 - 1. Of an opaque block they are its octets, and 3.
#[tactic(auto, using(crate::proofs::Whole::lengths))]
fn canonical_octets(items: &CatalogueItems<'_>, found: &Block) -> u64
    requires { IsBlockOf (catalogue_tree items.now) (block_tree found.now) }
    ensures { result ≡ capped (canonical_length (catalogue_tree items.now) (block_tree found.now)) }
{
    match found {
        Block::Opaque { octets, .. } => u64::from(octets.count()) + 3,
        Block::Read { category, .. } => match items.get(*category) {
            Some(uap) => length_over(uap, found),
            None => 3,
        },
    }
}

/// A block that was read, with the octets of its canonical form, at most 65,535.
#[derive(Drop)]
pub struct SizedBlock {
    pub block: Block,
    pub octets: usize,
}

/// The block whose text the tokens of a line are, under the catalogue of those items. A text is of one block, of a category that the catalogue has, or an
/// opaque one of a category that it lacks; each number stands in decimal without leading zeros, and octets in lower-case
/// hexadecimal digits.
///
/// `BadToken` comes exactly where the tokens are no block's text. It names the first token through which none begins, or
/// the count of the tokens where all of them begin one: a category that the catalogue lacks, an item out of order, a
/// number too great, an occurrence too many, a token after the end. Then `TooLong` comes exactly where the canonical form
/// has more than 65,535 octets.
///
/// Each token is read once, from left to right, and the block is all that takes memory. The calls nest as the kinds of
/// the specification do.
pub fn read_block_over(
    alloc: Global,
    items: &CatalogueItems<'_>,
    tokens: &Tokens<'_>,
) -> Result<SizedBlock, TextError>
    ensures text { IfOk result (λ found. IsTextOf (catalogue_tree items.now) tokens.now (block_tree found.block)) }
    ensures octets { IfOk result (λ found. found.octets ≡ canonical_length (catalogue_tree items.now) (block_tree found.block)) }
    ensures fault { IfErr result (IsFault (catalogue_tree items.now) tokens.now) }
{
    let block = match spelled_block(alloc, items, tokens) {
        Ok(block) => block,
        Err(error) => return Err(error),
    };
    let octets = canonical_octets(items, &block);
    if octets > 65_535 {
        return Err(TextError::TooLong { octets });
    }
    Ok(SizedBlock {
        block,
        octets: octets as usize,
    })
}

/// The block whose text the tokens of a line are, under a catalogue, as `read_block_over` gives it under the catalogue's
/// items, which are looked up here.
pub fn read_block_text(
    alloc: Global,
    catalogue: &Catalogue,
    tokens: &Tokens<'_>,
) -> Result<Block, TextError>
    ensures text { IfOk result (λ found. IsTextOf (catalogue_tree catalogue.now) tokens.now (block_tree found)) }
    ensures fault { IfErr result (IsFault (catalogue_tree catalogue.now) tokens.now) }
{
    let items = items_of(alloc, catalogue)?;
    match read_block_over(alloc, &items, tokens) {
        Ok(found) => Ok(found.block),
        Err(error) => Err(error),
    }
}
