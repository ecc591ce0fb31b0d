//! Why tokens are no block's text.
ghost use Rattle.std.specs.Prelude.{◌≡◌};
ghost use Rattle.ax_block_reader.specs.declared.error.TextError.TheVariants as Fault;

use std::alloc::AllocError;
use thiserror::Error;

/// Why tokens aren't the text of a block that has octets. Tokens are numbered from 0.
#[derive(Debug, Drop, Error)]
pub enum TextError {
    /// The first token through which no block's text begins, or the count of the tokens where the text is cut short.
    #[error("no block text goes on with token {token}")]
    BadToken { token: u32 },
    /// The tokens are the text of a block whose canonical form has that many octets, capped at 2^64 - 1, where a block
    /// has at most 65,535.
    #[error("the block has {octets} octets")]
    TooLong { octets: u64 },
    /// No memory was left for the block.
    #[error("out of memory")]
    OutOfMemory,
}

impl From<AllocError> for TextError {
    ghost from_gives = { λ _ e. e ≡ Fault.OutOfMemory };

    fn from(_e: AllocError) -> TextError {
        TextError::OutOfMemory
    }
}
