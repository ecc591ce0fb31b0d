//! The octets of an opaque block.
ghost use Rattle.std.specs.Prelude.{◌≡◌, ◌+◌, ◌≤◌, length, IfOk};
ghost use Rattle.ax_bits.specs.Bits.{bits, AreOctets};
ghost use Rattle.ax_format.specs.CanonicalOctets.{framed};
ghost use Rattle.ax_format.specs.Sizes.{longest_body};

use ax_bits::Out;
use ax_lists::zeros;
use ax_values::write_opaque;
use std::alloc::{AllocError, Global};

/// Fills a buffer of just its length with an opaque block.
fn fill(category: u8, octets: &[u8], buffer: &mut [u8])
    requires few { length octets.now ≤ longest_body }
    requires length { length buffer.old ≡ 3 + length octets.now }
    ensures { buffer.new ≡ framed category octets.now }
{
    write_over(category, octets, buffer);
}

fn write_over(category: u8, octets: &[u8], buffer: &mut [u8])
    requires few { length octets.now ≤ longest_body }
    requires length { length buffer.old ≡ 3 + length octets.now }
    ensures bits { bits buffer.new ≡ bits (framed category octets.now) }
    ensures octets { AreOctets (framed category octets.now) }
{
    let mut out = Out::over(buffer);
    write_opaque(category, octets, &mut out);
}

/// CAT, LEN and at most 65,532 octets as they are.
pub(crate) fn opaque_block(
    alloc: Global,
    category: u8,
    octets: &[u8],
) -> Result<Vec<u8>, AllocError>
    requires { length octets.now ≤ longest_body }
    ensures { IfOk result (λ made. made.items ≡ framed category octets.now) }
{
    let mut buffer = zeros(alloc, octets.len() + 3)?;
    fill(category, octets, &mut buffer);
    Ok(buffer)
}
