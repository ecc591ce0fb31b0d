//! How many of a block's records come into each of the blocks that it is split into.
ghost use Rattle.std.specs.Prelude.{◌<◌, length, IfOk, IfErr};
ghost use Rattle.std.specs.List.{AllByRecursion};
ghost use Rattle.ax_lists.specs.Sizes.{list_bound};
ghost use Rattle.ax_format.specs.Bodies.{RecordShape};
ghost use Rattle.ax_format.specs.OfCode.{HasNoFlaw};
ghost use Rattle.ax_format.specs.Plain.{records_tree, spec_tree};
ghost use Rattle.ax_rescale.specs.Splits.{AreFronts, IsNotSplit};

use crate::error::SplitError;
use crate::octets::octets_of_record;
use ax_format::{Record, Spec};
use ax_lists::Sequence;
use std::alloc::Global;

/// The octets of CAT and LEN.
const HEAD: u64 = 3;

/// The most octets that a block has.
const LONGEST: u64 = 65_535;

/// The numbers of records of the blocks, in order: each block has as many of the next records as it can. The octets of each
/// record are counted once.
pub(crate) fn fronts(
    alloc: Global,
    spec: &Spec,
    records: &[Record],
) -> Result<Sequence<u32>, SplitError>
    requires no_flaw { HasNoFlaw spec.now }
    requires shapes { AllByRecursion (RecordShape (spec_tree spec.now)) (records_tree records.now) }
    requires some { 0 < length records.now }
    requires few { length records.now < list_bound }
    ensures fronts { IfOk result (AreFronts spec.now records.now) }
    ensures too_long { IfErr result (IsNotSplit spec.now (records_tree records.now)) }
{
    let mut fronts = Sequence::new(alloc);
    let mut count: u32 = 0;
    let mut octets = HEAD;
    for one in records {
        let own = octets_of_record(spec, one);
        let alone = own.saturating_add(HEAD);
        if alone > LONGEST {
            return Err(SplitError::RecordTooLong { octets: alone });
        }
        if octets + own > LONGEST {
            fronts.push(count)?;
            count = 1;
            octets = HEAD + own;
        } else {
            count += 1;
            octets += own;
        }
    }
    fronts.push(count)?;
    Ok(fronts)
}
