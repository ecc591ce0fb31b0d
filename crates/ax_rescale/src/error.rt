//! Why a block isn't split.
ghost use Rattle.std.specs.Prelude.{◌≡◌};
ghost use Rattle.ax_rescale.specs.declared.error.SplitError.TheVariants as Splitting;

use std::alloc::AllocError;
use thiserror::Error;

/// Why a block isn't split into blocks of at most 65,535 octets.
#[derive(Debug, Drop, Error)]
pub enum SplitError {
    /// The canonical block of a record alone has that many octets, more than 65,535, capped at 2^64 - 1. It is the first such record.
    #[error("a record's block has {octets} octets")]
    RecordTooLong { octets: u64 },
    /// No memory was left for the blocks.
    #[error("out of memory")]
    OutOfMemory,
}

impl From<AllocError> for SplitError {
    ghost from_gives = { λ _ e. e ≡ Splitting.OutOfMemory };

    fn from(_e: AllocError) -> SplitError {
        SplitError::OutOfMemory
    }
}
