//! Blocks.
ghost use Rattle.std.specs.Prelude.{◌≡◌, ◌<◌, length, IfOk, IfErr, OnOk};
ghost use Rattle.ax_format.specs.Plain.{catalogue_tree, block_tree};
ghost use Rattle.ax_tokens.specs.Stopping.{Stops};
ghost use Rattle.ax_block_reader.specs.BlockForms.{HasKnown, HasLacked, ReadShape, OpaqueShape, after_block_word, after_opaque_word, IsForm};
ghost use Rattle.ax_block_reader.specs.BlockTexts.{block_texts, IsBlockText};
ghost use Rattle.ax_text_form.specs.CatalogueBlocks.{IsBlockOf};
ghost use Rattle.ax_block_reader.specs.Continuing.{Gives};

use crate::categories::{known_category, lacked_category, next_category};
use crate::octets::opaque_content;
use crate::records::braced_records;
use ax_format::Block;
use ax_tokens::{Reader, Stopped};
use ax_uap::CatalogueItems;
use std::alloc::Global;

/// The form of a block's text, by its first word.
enum BlockForm {
    /// `block`, where the catalogue has a category.
    Read,
    /// `opaque`, where it lacks one.
    Opaque,
}

/// The form of the block whose first word comes. The word isn't read yet.
#[tactic(auto, using(crate::proofs::BlockWays::form_ways))]
fn form_of(reader: &Reader<'_, '_>, items: &CatalogueItems<'_>) -> Result<BlockForm, Stopped>
    ensures form { IfOk result (λ form. IsForm (catalogue_tree items.now) form reader.now) }
    ensures none { IfErr result (λ stopped. Stops stopped (IsBlockText (catalogue_tree items.now)) reader.now reader.now) }
{
    let known = known_category(items);
    let token = reader.peek()?;
    if token.text == b"block".as_slice() {
        return match known {
            Some(_) => Ok(BlockForm::Read),
            None => Err(Stopped::Bad),
        };
    }
    if token.text == b"opaque".as_slice() {
        return match lacked_category(items) {
            Some(_) => Ok(BlockForm::Opaque),
            None => Err(Stopped::Bad),
        };
    }
    Err(Stopped::Bad)
}

/// What stands after `block`: a category that the catalogue has, and records in braces.
#[tactic(auto, using(crate::proofs::BlockWays::read_ways))]
fn read_block(
    alloc: Global,
    reader: &mut Reader<'_, '_>,
    items: &CatalogueItems<'_>,
) -> Result<Block, Stopped>
    requires { HasKnown (catalogue_tree items.now) }
    ensures { Gives block_tree (ReadShape (catalogue_tree items.now)) (after_block_word (catalogue_tree items.now)) result reader.old reader.new }
{
    let category = next_category(reader)?;
    let Some(uap) = items.get(category) else {
        return Err(Stopped::Bad);
    };
    reader.skip();
    let records = braced_records(alloc, reader, uap)?;
    Ok(Block::Read { category, records })
}

/// What stands after `opaque`: a category that the catalogue lacks, and octets.
#[tactic(auto, using(crate::proofs::BlockWays::opaque_ways))]
fn opaque_block(
    alloc: Global,
    reader: &mut Reader<'_, '_>,
    items: &CatalogueItems<'_>,
) -> Result<Block, Stopped>
    requires { HasLacked (catalogue_tree items.now) }
    ensures { Gives block_tree (OpaqueShape (catalogue_tree items.now)) after_opaque_word result reader.old reader.new }
{
    let category = next_category(reader)?;
    if items.get(category).is_some() {
        return Err(Stopped::Bad);
    }
    reader.skip();
    let octets = opaque_content(alloc, reader)?;
    Ok(Block::Opaque { category, octets })
}

/// A block that fits the catalogue. Tokens may follow it.
#[tactic(auto, using(crate::proofs::BlockWays::block_ways))]
pub(crate) fn block(
    alloc: Global,
    reader: &mut Reader<'_, '_>,
    items: &CatalogueItems<'_>,
) -> Result<Block, Stopped>
    ensures { Gives block_tree (IsBlockOf (catalogue_tree items.now)) (block_texts (catalogue_tree items.now)) result reader.old reader.new }
{
    match form_of(reader, items)? {
        BlockForm::Read => {
            reader.skip();
            let block = read_block(alloc, reader, items)?;
            Ok(block)
        }
        BlockForm::Opaque => {
            reader.skip();
            let block = opaque_block(alloc, reader, items)?;
            Ok(block)
        }
    }
}
