//! Blocks to octets.
ghost use Rattle.std.specs.Prelude.{◌≡◌, ◌+◌, ◌*◌, ◌<◌, ◌≤◌, ◌⊎◌, ◌↔◌, ◌++◌, length, IfOk, IfErr, IsErrOf};
ghost use Rattle.ax_bits.specs.Bits.{bits, word, AreOctets};
ghost use Rattle.ax_bits.specs.Out.{Appends, room};
ghost use Rattle.ax_format.specs.CanonicalOctets.{framed};
ghost use Rattle.ax_format.specs.Lengths.{capped};
ghost use Rattle.ax_format.specs.OfCode.{HasNoFlaw, BlockFits, block_octets, block_length};
ghost use Rattle.ax_format.specs.Sizes.{longest_block, longest_body};
ghost use Rattle.ax_values.specs.Decoding.{ReadsBack};
ghost use Rattle.ax_values.specs.declared.error.EncodeError.TheVariants as Encoding;

use crate::error::EncodeError;
use crate::write_records::write_body;
use ax_bits::Out;
use ax_format::{Block, Spec, canon_length};
use ax_lists::zeros;
use ax_uap::UapItems;
use std::alloc::{AllocError, Global};

/// The canonical form of a block that fits a specification without flaw: CAT, LEN and the records, each presence field
/// the least; reading it gives the block back. TooLong comes exactly where it has more than 65,535 octets, with their number, capped at 2^64 - 1. Takes
/// the room of the octets once, and looks each item of the UAP up once.
pub fn encode_block(alloc: Global, spec: &Spec, block: &Block) -> Result<Vec<u8>, EncodeError>
    requires no_flaw { HasNoFlaw spec.now }
    requires block_fits { BlockFits spec.now block.now }
    ensures octets { IfOk result (λ made. made.items ≡ block_octets spec.now block.now) }
    ensures reads_back { IfOk result (λ made. ReadsBack spec.now block.now made.items) }
    ensures too_long { longest_block < block_length spec.now block.now ↔ IsErrOf result (Encoding.TooLong (capped (block_length spec.now block.now))) }
    ensures error { IfErr result (λ e. (e ≡ Encoding.TooLong (capped (block_length spec.now block.now))) ⊎ (e ≡ Encoding.OutOfMemory)) }
{
    let length = canon_length(spec, block);
    if length > 65_535 {
        return Err(EncodeError::TooLong { octets: length });
    }
    let items = UapItems::of(alloc, spec)?;
    let octets = encode_of_length(alloc, &items, block, length as usize)?;
    Ok(octets)
}

/// The canonical form of a block that fits a specification without flaw, over the items of its UAP, where it has that many
/// octets, at most 65,535. Takes their room once.
pub fn encode_of_length(
    alloc: Global,
    items: &UapItems<'_>,
    block: &Block,
    length: usize,
) -> Result<Vec<u8>, AllocError>
    requires no_flaw { HasNoFlaw items.now.spec.now }
    requires block_fits { BlockFits items.now.spec.now block.now }
    requires length { length ≡ block_length items.now.spec.now block.now }
    requires small { length ≤ longest_block }
    ensures { IfOk result (λ made. made.items ≡ block_octets items.now.spec.now block.now) }
{
    let mut buffer = zeros(alloc, length)?;
    fill(block, items, &mut buffer);
    Ok(buffer)
}

/// Fills a buffer of just its length with the canonical form of a block.
fn fill(block: &Block, items: &UapItems<'_>, buffer: &mut [u8])
    requires no_flaw { HasNoFlaw items.now.spec.now }
    requires block_fits { BlockFits items.now.spec.now block.now }
    requires length { length buffer.old ≡ block_length items.now.spec.now block.now }
    requires small { length buffer.old ≤ longest_block }
    ensures { buffer.new ≡ block_octets items.now.spec.now block.now }
{
    write_over(block, items, buffer);
}

#[tactic(auto, using(crate::proofs::WrittenBlocks::filled))]
fn write_over(block: &Block, items: &UapItems<'_>, buffer: &mut [u8])
    requires no_flaw { HasNoFlaw items.now.spec.now }
    requires block_fits { BlockFits items.now.spec.now block.now }
    requires length { length buffer.old ≡ block_length items.now.spec.now block.now }
    requires small { length buffer.old ≤ longest_block }
    ensures bits { bits buffer.new ≡ bits (block_octets items.now.spec.now block.now) }
    ensures octets { AreOctets (block_octets items.now.spec.now block.now) }
{
    let length = buffer.len() as u16;
    let mut out = Out::over(buffer);
    write_block(block, items, length, &mut out);
}

/// Appends the canonical form of a block of that many octets.
fn write_block(block: &Block, items: &UapItems<'_>, length: u16, out: &mut Out<'_>)
    requires no_flaw { HasNoFlaw items.now.spec.now }
    requires block_fits { BlockFits items.now.spec.now block.now }
    requires length { length ≡ block_length items.now.spec.now block.now }
    requires room { 8 * block_length items.now.spec.now block.now ≤ room out.old }
    ensures written { Appends out.old out.new (bits (block_octets items.now.spec.now block.now)) }
    ensures octets { AreOctets (block_octets items.now.spec.now block.now) }
{
    match block {
        Block::Read { category, records } => {
            write_front(*category, length, out);
            write_body(records, items, out);
        }
        Block::Opaque { category, octets } => {
            write_opaque(*category, octets.as_slice(), out);
        }
    }
}

/// Appends a block of a category without a specification: CAT, LEN, and at most 65,532 octets as they are.
#[tactic(auto, using(crate::proofs::WrittenBlocks::opaque_blocks))]
pub fn write_opaque(category: u8, octets: &[u8], out: &mut Out<'_>)
    requires few { length octets.now ≤ longest_body }
    requires room { 24 + 8 * length octets.now ≤ room out.old }
    ensures written { Appends out.old out.new (bits (framed category octets.now)) }
    ensures octets { AreOctets (framed category octets.now) }
{
    write_front(category, octets.len() as u16 + 3, out);
    write_octets(octets, out);
}

/// Appends CAT and LEN, which is the block's octets with these three.
#[inline]
pub fn write_front(category: u8, length: u16, out: &mut Out<'_>)
    requires { 24 ≤ room out.old }
    ensures written { Appends out.old out.new (word 8 category ++ word 16 length) }
    ensures octet { category < 256 }
{
    out.push_octets(&[category, (length / 256) as u8, (length % 256) as u8]);
}

fn write_octets(octets: &[u8], out: &mut Out<'_>)
    requires { 8 * length octets.now ≤ room out.old }
    ensures written { Appends out.old out.new (bits octets.now) }
    ensures octets { AreOctets octets.now }
{
    out.push_octets(octets);
}
