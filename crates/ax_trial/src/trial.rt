//! The line of `trial`.
ghost use Rattle.std.specs.Prelude.{◌≡◌, ◌≤◌, length, IfOk};
ghost use Rattle.ax_format.specs.Plain.{spec_tree};
ghost use Rattle.ax_format.specs.Sizes.{longest_block};
ghost use Rattle.ax_codec.specs.Standing.{IsCompiled};
ghost use Rattle.ax_trial.specs.Counting.{AreTotals};
ghost use Rattle.ax_trial.specs.Trial.{IsTrial};

use crate::block::count_block;
use crate::totals::Totals;
use ax_canon::blank_output;
use ax_check::Accepted;
use ax_codec::Codec;
use ax_tables::compile;
use ax_vectors::{Draws, make_block};
use std::alloc::{AllocError, Global};

/// So many blocks, made from a seed.
#[derive(Clone, Copy)]
struct Seeded {
    seed: u64,
    count: u32,
}

/// The numbers of so many blocks made from a seed, one after another, each of which is laid in its canonical form at the front of
/// the output.
#[tactic(auto, using(crate::proofs::Sums::steps))]
fn totals_of(
    alloc: Global,
    accepted: &Accepted,
    codec: &Codec,
    blocks: Seeded,
    output: &mut [u8],
) -> Result<Totals, AllocError>
    requires compiled { IsCompiled codec.now (spec_tree accepted.now) }
    requires few { blocks.count ≤ 1000000 }
    requires room { length output.old ≡ longest_block }
    ensures { IfOk result (λ totals. AreTotals (spec_tree accepted.now) blocks.seed blocks.count totals) }
{
    let mut draws = Draws::new(blocks.seed);
    let mut totals = Totals::none();
    let mut left = blocks.count;
    while left > 0 {
        left -= 1;
        let octets = make_block(alloc, accepted, &mut draws)?;
        count_block(accepted.spec(), codec, &octets, output, &mut totals);
    }
    Ok(totals)
}

/// The line of numbers of `count` blocks made from the seed over an accepted specification, up to a million: how many
/// blocks, records, octets and octets of their canonical forms there are, and the sum of these last as numbers, which is
/// below 2^64.
#[tactic(auto, using(crate::proofs::Sums::trials))]
pub fn trial_text(
    alloc: Global,
    accepted: &Accepted,
    seed: u64,
    count: u32,
) -> Result<Vec<u8>, AllocError>
    requires { count ≤ 1000000 }
    ensures { IfOk result (λ line. IsTrial (spec_tree accepted.now) seed count line.items) }
{
    let codec = compile(alloc, accepted)?;
    let mut output = blank_output(alloc)?;
    let blocks = Seeded { seed, count };
    let totals = totals_of(alloc, accepted, &codec, blocks, &mut output)?;
    totals.line(alloc)
}
