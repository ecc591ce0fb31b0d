//! Why a block reader gives no block.
use thiserror::Error;

/// The refusals of a block reader. A bit is counted from the first bit of the block that isn't there whole.
#[derive(Clone, Copy, Debug, PartialEq, Eq, Error)]
pub enum NextError {
    /// LEN is 0 to 3, too short for the header and one octet.
    #[error("the length of the block is below 4")]
    BadLen,
    /// One or two octets are left; the bit is the first one missing.
    #[error("the input ends in the header of a block, at bit {bit}")]
    EndsInHeader { bit: u32 },
    /// Fewer octets than LEN are left; the bit is the first one missing.
    #[error("the input ends in a block, at bit {bit}")]
    EndsInBlock { bit: u32 },
    /// The block contains an octet past the limit on the input.
    #[error("the input is longer than its limit")]
    InputTooLong,
    /// A read failed.
    #[error("a read failed")]
    ReadFault,
}
