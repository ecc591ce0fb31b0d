//! Why words are no command line.
ghost use Rattle.std.specs.Prelude.{◌≡◌};
ghost use Rattle.ax_words.specs.declared.error.WordsError.TheVariants as Fault;

use std::alloc::AllocError;
use thiserror::Error;

/// Why there is no line.
#[derive(Debug, Drop, Error)]
pub enum WordsError {
    /// The words have none of the shapes of a command line.
    #[error("the words have no shape")]
    Usage,
    /// No memory was left.
    #[error("out of memory")]
    OutOfMemory,
}

impl From<AllocError> for WordsError {
    ghost from_gives = { λ _ e. e ≡ Fault.OutOfMemory };

    fn from(_e: AllocError) -> WordsError {
        WordsError::OutOfMemory
    }
}
