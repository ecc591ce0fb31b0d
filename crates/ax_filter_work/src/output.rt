//! Blocks of matching records laid at the front of an output.
ghost use Rattle.std.specs.Prelude.{◌≡◌, ◌≤◌, length, IfOk, IfErr};
ghost use Rattle.ax_bits.specs.Bits.{bits};
ghost use Rattle.ax_filter.specs.OfCode.{expression, catalogue_of};
ghost use Rattle.ax_filter_work.specs.Laid.{LaysBitsBy, LaysMatching};
ghost use Rattle.ax_format.specs.Sizes.{longest_block, longest_body};
ghost use Rattle.ax_walk.specs.RecordRows.{AreRecordRows};
ghost use Rattle.ax_walk.specs.Views.{FailsThere, SpellsSome};

use crate::matching::Matching;
use ax_bits::Out;
use ax_canon::scan_kept;
use ax_filter::{Filter, Memo};
use ax_format::BodyFault;
use ax_walk::RecordRows;

/// Lays the canonical block of those records of a body of the codec's category that the filter holds of at the front of the
/// output, and answers its octets, 0 where there is none; or the first fault of the body, with its bit in the body.
pub(crate) fn lay_matching(
    filter: &Filter<'_>,
    records: &RecordRows<'_>,
    body: &[u8],
    memo: &mut Memo,
    output: &mut [u8],
) -> Result<u32, BodyFault>
    requires rows { AreRecordRows records.now }
    requires size { (1 ≤ length body.now) × (length body.now ≤ longest_body) }
    requires room { length output.old ≡ longest_block }
    ensures spelled { IfOk result (λ count. SpellsSome records.now.codec.now body.now) }
    ensures laid { IfOk result (λ count. LaysMatching (catalogue_of filter.now) (expression filter.now) records.now.codec.now body.now count output.new) }
    ensures fault { IfErr result (λ fault. FailsThere records.now.codec.now body.now fault) }
    ensures room { length output.new ≡ longest_block }
{
    // Read for its range: a category is an octet.
    let _category = records.codec.category();
    lay_matching_bits(filter, records, body, memo, output)
}

/// The same, by bits.
fn lay_matching_bits(
    filter: &Filter<'_>,
    records: &RecordRows<'_>,
    body: &[u8],
    memo: &mut Memo,
    output: &mut [u8],
) -> Result<u32, BodyFault>
    requires rows { AreRecordRows records.now }
    requires size { (1 ≤ length body.now) × (length body.now ≤ longest_body) }
    requires room { length output.old ≡ longest_block }
    ensures spelled { IfOk result (λ count. SpellsSome records.now.codec.now body.now) }
    ensures laid { IfOk result (λ count. LaysBitsBy filter.now records.now.codec.now body.now count (bits output.new)) }
    ensures fault { IfErr result (λ fault. FailsThere records.now.codec.now body.now fault) }
    ensures room { length output.new ≡ longest_block }
{
    let mut matching = Matching {
        filter,
        codec: records.codec,
        memo,
        spot: filter.spot_under(records.codec),
    };
    let mut out = Out::over(output);
    scan_kept(records, body, &mut matching, &mut out)
}
