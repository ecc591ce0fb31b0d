//! Why tokens are no filter.
ghost use Rattle.std.specs.Prelude.{◌≡◌};
ghost use Rattle.ax_expressions.specs.declared.error.FilterError.TheVariants as Fault;

use std::alloc::AllocError;
use thiserror::Error;

/// Why tokens are no filter over a catalogue: the fault of the smallest token number. Tokens are numbered from 0.
#[derive(Debug, Drop, Error)]
pub enum FilterError {
    /// The first token through which no expression begins, or the count of the tokens where the expression is cut
    /// short.
    #[error("no expression goes on with token {token}")]
    BadToken { token: u32 },
    /// The first path whose category has no specification, or whose names are no place of it. It stands before the bad
    /// token, if there is one.
    #[error("the path at token {token} is unknown")]
    UnknownPath { token: u32 },
    /// The first path after `is` that leads to a place that isn't an element. It stands before the bad token, if there
    /// is one.
    #[error("the path at token {token} is no element")]
    NotAnElement { token: u32 },
    /// No memory was left.
    #[error("out of memory")]
    OutOfMemory,
}

impl From<AllocError> for FilterError {
    ghost from_gives = { λ _ e. e ≡ Fault.OutOfMemory };

    fn from(_e: AllocError) -> FilterError {
        FilterError::OutOfMemory
    }
}
