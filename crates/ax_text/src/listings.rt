//! Blocks as listings.
ghost use Rattle.std.specs.Prelude.{◌≡◌, ◌++◌, IfOk, OnOk};
ghost use Rattle.ax_format.specs.OfCode.{HasNoFlaw, BlockFits};
ghost use Rattle.ax_format.specs.Plain.{spec_tree, block_tree};
ghost use Rattle.ax_text_form.specs.ShowText.{OpaqueShown, ShowText};

use crate::records::list_records;
use ax_format::{Block, Spec, canon_length};
use ax_text_form::Lister;
use std::alloc::{AllocError, Global};

/// The listing of a block that fits a specification without flaw: a line for the block, with its number in the input, its
/// category and the octets of its canonical form, a line for each record, and the lines of each thing in it at its path.
pub fn show_lines(
    alloc: Global,
    spec: &Spec,
    block: &Block,
    number: u64,
) -> Result<Vec<u8>, AllocError>
    requires no_flaw { HasNoFlaw spec.now }
    requires fits { BlockFits spec.now block.now }
    ensures { IfOk result (λ lines. lines.items ≡ ShowText (spec_tree spec.now) (block_tree block.now) number) }
{
    let mut lister = Lister::new(alloc);
    list_block(&mut lister, spec, block, number)?;
    Vec::from_slice(alloc, lister.listing())
}

/// The lines of a block of that number in its input.
#[tactic(auto, using(crate::proofs::ListedBlocks::block_ways))]
fn list_block(
    lister: &mut Lister,
    spec: &Spec,
    block: &Block,
    number: u64,
) -> Result<(), AllocError>
    requires no_flaw { HasNoFlaw spec.now }
    requires fits { BlockFits spec.now block.now }
    ensures { OnOk result (lister.new.out.octets ≡ lister.old.out.octets ++ ShowText (spec_tree spec.now) (block_tree block.now) number) }
{
    match block {
        Block::Read { category, records } => {
            let octets = canon_length(spec, block);
            lister.block_line(number, *category, octets, records.count())?;
            list_records(lister, records, spec)
        }
        Block::Opaque { category, octets } => {
            lister.opaque_line(number, *category, octets.as_slice())
        }
    }
}

/// The listing of a block whose category has no specification: its one line, from its category and its octets after LEN.
pub fn show_opaque(
    alloc: Global,
    number: u64,
    category: u8,
    octets: &[u8],
) -> Result<Vec<u8>, AllocError>
    ensures { IfOk result (λ lines. lines.items ≡ OpaqueShown number category octets.now) }
{
    let mut lister = Lister::new(alloc);
    lister.opaque_line(number, category, octets)?;
    Vec::from_slice(alloc, lister.listing())
}
