//! One generated block, and its canonical form.
ghost use Rattle.std.specs.Prelude.{◌≡◌, ◌≤◌, ◌<◌, length, sum, take, drop};
ghost use Rattle.ax_format.specs.Plain.{spec_tree};
ghost use Rattle.ax_format.specs.Sizes.{longest_block};
ghost use Rattle.ax_codec.specs.Standing.{IsCompiled};
ghost use Rattle.ax_trial.specs.Counting.{AddsForm, IsCanonOf, IsWithin};
ghost use Rattle.ax_vectors.specs.Made.{IsSpelledBlock};

use crate::totals::Totals;
use ax_canon::lay_block;
use ax_codec::Codec;
use ax_format::Spec;
use ax_walk::scan;

/// The sum of octets as numbers.
pub(crate) fn sum_of(octets: &[u8]) -> u64
    requires { length octets.now ≤ longest_block }
    ensures sum { result ≡ sum octets.now }
    ensures small { result ≤ 16711425 }
{
    let mut total = 0;
    for octet in octets {
        total += *octet as u64;
    }
    total
}

/// The octets of a block after CAT and LEN.
fn body_of(octets: &[u8]) -> &[u8]
    requires { 3 ≤ length octets.now }
    ensures { result.now ≡ drop 3 octets.now }
{
    &octets[3..]
}

/// Lays the canonical form of a block of the specification's category that spells records of it at the front of an output, and
/// answers how many records it has, and its octets. Contracts speak of the specification, the code doesn't.
#[tactic(auto, using(crate::proofs::Forms::forms))]
fn lay_form(_spec: &Spec, codec: &Codec, octets: &[u8], output: &mut [u8]) -> (u32, u32)
    requires compiled { IsCompiled codec.now (spec_tree _spec.now) }
    requires spelled { IsSpelledBlock (spec_tree _spec.now) octets.now }
    requires room { length output.old ≡ longest_block }
    ensures form { IsCanonOf (spec_tree _spec.now) octets.now result.0 (take result.1 output.new) }
    ensures within { result.1 ≤ longest_block }
    ensures room { length output.new ≡ longest_block }
{
    match scan(codec, body_of(octets)) {
        Ok(view) => {
            let count = lay_block(&view, output);
            (view.count(), count)
        }
        Err(_) => unreachable!(),
    }
}

/// Counts a block that was made: its records, its octets and its canonical form, which is laid at the front of the output.
pub(crate) fn count_block(
    spec: &Spec,
    codec: &Codec,
    octets: &[u8],
    output: &mut [u8],
    totals: &mut Totals,
)
    requires compiled { IsCompiled codec.now (spec_tree spec.now) }
    requires spelled { IsSpelledBlock (spec_tree spec.now) octets.now }
    requires room { length output.old ≡ longest_block }
    requires within { IsWithin totals.old }
    requires few { totals.old.blocks < 1000000 }
    ensures counted { AddsForm (spec_tree spec.now) totals.old totals.new octets.now }
    ensures room { length output.new ≡ longest_block }
{
    let (records, count) = lay_form(spec, codec, octets, output);
    totals.add(records, octets, &output[..count as usize]);
}
