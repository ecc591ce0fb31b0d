//! Blocks laid at the front of an output.
ghost use Rattle.std.specs.Prelude.{◌≡◌, ◌+◌, ◌*◌, ◌≤◌, length, take, IfOk, IfErr};
ghost use Rattle.ax_bits.specs.Bits.{bits, AreOctets};
ghost use Rattle.ax_format.specs.CanonicalOctets.{framed};
ghost use Rattle.ax_format.specs.Sizes.{longest_block, longest_body};
ghost use Rattle.ax_walk.specs.RecordRows.{AreRecordRows};
ghost use Rattle.ax_walk.specs.Views.{FailsThere, SpellsSome};
ghost use Rattle.ax_canon.specs.Laid.{LaysBits, LaysCanonical};

use crate::block::{canonical, scan_canonical};
use ax_bits::Out;
use ax_format::{BodyFault, RawBlock};
use ax_lists::zeros;
use ax_values::write_opaque;
use ax_walk::{BlockView, RecordRows};
use std::alloc::{AllocError, Global};

/// The most octets of a data block.
const LONGEST: usize = 65_535;

/// An output as long as the longest data block.
pub fn blank_output(alloc: Global) -> Result<Vec<u8>, AllocError>
    ensures { IfOk result (λ made. length made.items ≡ longest_block) }
{
    zeros(alloc, LONGEST)
}

/// Lays the canonical block of a view at the front of the output, and answers its octets.
pub fn lay_view(view: &BlockView<'_, '_>, output: &mut [u8]) -> u32
    requires room { length output.old ≡ longest_block }
    ensures laid { LaysBits view.now.codec.now view.now.body.now result (bits output.new) }
    ensures room { length output.new ≡ longest_block }
{
    let mut out = Out::over(output);
    canonical(view, &mut out)
}

/// Lays the canonical block of the records that a view stands for at the front of an output as long as the longest data block,
/// and answers its octets.
pub fn lay_block(view: &BlockView<'_, '_>, output: &mut [u8]) -> u32
    requires room { length output.old ≡ longest_block }
    ensures laid { LaysCanonical view.now.codec.now view.now.body.now result output.new }
    ensures room { length output.new ≡ longest_block }
{
    // Read for its range: a category is an octet.
    let _category = view.codec().category();
    lay_view(view, output)
}

/// Lays the canonical form of the records that a body of the codec's category spells at the front of the output, and answers its octets; or the
/// first fault of the body, with its bit in the body.
pub(crate) fn lay_canonical(
    records: &RecordRows<'_>,
    body: &[u8],
    output: &mut [u8],
) -> Result<u32, BodyFault>
    requires rows { AreRecordRows records.now }
    requires size { (1 ≤ length body.now) × (length body.now ≤ longest_body) }
    requires room { length output.old ≡ longest_block }
    ensures spelled { IfOk result (λ count. SpellsSome records.now.codec.now body.now) }
    ensures laid { IfOk result (λ count. LaysCanonical records.now.codec.now body.now count output.new) }
    ensures fault { IfErr result (λ fault. FailsThere records.now.codec.now body.now fault) }
    ensures room { length output.new ≡ longest_block }
{
    // Read for its range: a category is an octet.
    let _category = records.codec.category();
    lay_canonical_bits(records, body, output)
}

/// The same, by bits.
fn lay_canonical_bits(
    records: &RecordRows<'_>,
    body: &[u8],
    output: &mut [u8],
) -> Result<u32, BodyFault>
    requires rows { AreRecordRows records.now }
    requires size { (1 ≤ length body.now) × (length body.now ≤ longest_body) }
    requires room { length output.old ≡ longest_block }
    ensures spelled { IfOk result (λ count. SpellsSome records.now.codec.now body.now) }
    ensures laid { IfOk result (λ count. LaysBits records.now.codec.now body.now count (bits output.new)) }
    ensures fault { IfErr result (λ fault. FailsThere records.now.codec.now body.now fault) }
    ensures room { length output.new ≡ longest_block }
{
    let mut out = Out::over(output);
    scan_canonical(records, body, &mut out)
}

/// Lays a block of a category without a file at the front of the output, and answers its octets.
pub fn lay_opaque(raw: &RawBlock<'_>, output: &mut [u8]) -> u32
    requires room { length output.old ≡ longest_block }
    ensures laid { take result output.new ≡ framed raw.now.category raw.now.body.now }
    ensures within { result ≤ longest_block }
    ensures room { length output.new ≡ longest_block }
{
    lay_opaque_bits(raw, output);
    raw.body.len() as u32 + 3
}

/// The same, by bits.
fn lay_opaque_bits(raw: &RawBlock<'_>, output: &mut [u8])
    requires room { length output.old ≡ longest_block }
    ensures laid { take (8 * (length raw.now.body.now + 3)) (bits output.new) ≡ bits (framed raw.now.category raw.now.body.now) }
    ensures octets { AreOctets (framed raw.now.category raw.now.body.now) }
    ensures room { length output.new ≡ longest_block }
{
    let mut out = Out::over(output);
    write_opaque(raw.category, raw.body, &mut out);
}
