//! The output, and opaque blocks laid at its front.
ghost use Rattle.std.specs.Prelude.{◌≡◌, ◌+◌, ◌*◌, ◌≤◌, length, take};
ghost use Rattle.ax_bits.specs.Bits.{bits, AreOctets};
ghost use Rattle.ax_format.specs.CanonicalOctets.{framed};
ghost use Rattle.ax_format.specs.Sizes.{longest_block};

use crate::bodies::Laid;
use ax_bits::Out;
use ax_format::RawBlock;
use ax_lists::zeros;
use ax_values::write_opaque;
use std::alloc::{AllocError, Global};

/// The octets of an output: 65,535 that are kept, and after them room for the longest item.
const ROOM: usize = 131_067;

/// The octets of a migrated block and those of the lines of what it loses, each at the front of its output, and how many were
/// laid there.
pub(crate) struct Outputs {
    pub(crate) block: Vec<u8>,
    pub(crate) lines: Vec<u8>,
    pub(crate) laid: Laid,
    ghost room: { length block.items ≡ 131067 },
    ghost lines_room: { length lines.items ≡ 131067 },
}

impl Drop for Outputs {
    fn drop(self) {
        let Outputs {
            block: _block,
            lines: _lines,
            laid: _laid,
        } = self;
    }
}

impl Outputs {
    /// Both outputs, with nothing laid.
    pub(crate) fn new(alloc: Global) -> Result<Outputs, AllocError> {
        Ok(Outputs {
            block: zeros(alloc, ROOM)?,
            lines: zeros(alloc, ROOM)?,
            laid: Laid {
                octets: 0,
                lines: 0,
            },
        })
    }
}

/// Lays a block of another category at the front of an output, and answers its octets.
pub(crate) fn lay_opaque(raw: &RawBlock<'_>, output: &mut [u8]) -> u32
    requires room { length output.old ≡ 131067 }
    ensures laid { take result output.new ≡ framed raw.now.category raw.now.body.now }
    ensures within { result ≤ longest_block }
    ensures room { length output.new ≡ 131067 }
{
    lay_opaque_bits(raw, output);
    raw.body.len() as u32 + 3
}

/// The same, by bits.
fn lay_opaque_bits(raw: &RawBlock<'_>, output: &mut [u8])
    requires room { length output.old ≡ 131067 }
    ensures laid { take (8 * (length raw.now.body.now + 3)) (bits output.new) ≡ bits (framed raw.now.category raw.now.body.now) }
    ensures octets { AreOctets (framed raw.now.category raw.now.body.now) }
    ensures room { length output.new ≡ 131067 }
{
    let mut out = Out::over(output);
    write_opaque(raw.category, raw.body, &mut out);
}
