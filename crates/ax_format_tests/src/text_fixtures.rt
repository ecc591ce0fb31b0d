//! Blocks, read from octets in hexadecimal.
ghost use Rattle.ax_model.specs.OfCode.{HasNoFlaw, BlockFits};

use ax_model::{Block, RawBlock, Spec, fits};
use ax_values::decode_block;
use ax_vectors::octets;
use std::alloc::Global;
use std::process::Abort;

/// Octets in hexadecimal.
pub(crate) fn octets_of(rt: &impl Abort, alloc: Global, text: &str) -> Vec<u8> {
    octets(alloc, text).expect(rt, "octets")
}

/// Stops at a block whose LEN is not the number of its octets.
fn stop_at_length(rt: &impl Abort, octets: &[u8]) -> ! {
    panic!(rt; "LEN of {octets:?}")
}

/// The category and the body of the block that these octets are, whose LEN has to be theirs.
fn raw_of<'o>(rt: &impl Abort, octets: &'o [u8]) -> RawBlock<'o> {
    assert!(rt; octets.len() >= 4);
    if octets.len() != octets[1] as usize * 256 + octets[2] as usize {
        stop_at_length(rt, octets)
    }
    RawBlock {
        category: octets[0],
        body: &octets[3..],
    }
}

/// The block that these octets are read as.
pub(crate) fn octets_decoded(rt: &impl Abort, alloc: Global, spec: &Spec, octets: &[u8]) -> Block
    requires { HasNoFlaw spec.now }
    ensures { BlockFits spec.now result }
{
    let raw = raw_of(rt, octets);
    let block = decode_block(alloc, spec, &raw).expect(rt, "a block");
    assert!(rt; fits(spec, &block));
    block
}

/// The block that octets in hexadecimal are read as.
pub(crate) fn decoded(rt: &impl Abort, alloc: Global, spec: &Spec, block: &str) -> Block
    requires { HasNoFlaw spec.now }
    ensures { BlockFits spec.now result }
{
    let octets = octets_of(rt, alloc, block);
    octets_decoded(rt, alloc, spec, &octets)
}
