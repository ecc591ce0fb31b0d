//! Why a reader went no further.
ghost use Rattle.std.specs.Prelude.{◌≡◌};
ghost use Rattle.ax_tokens.specs.declared.stopped.Stopped.TheVariants as Stopped;

use std::alloc::{AllocError, AllocFailed};

/// Why a reader went no further.
#[derive(Debug, Drop)]
pub enum Stopped {
    /// The next token doesn't fit, or there is none.
    Bad,
    OutOfMemory,
}

impl From<AllocError> for Stopped {
    ghost from_gives = { λ _ e. e ≡ Stopped.OutOfMemory };

    fn from(_e: AllocError) -> Stopped {
        Stopped::OutOfMemory
    }
}

impl<T: Drop> From<AllocFailed<T>> for Stopped {
    ghost from_gives = { λ _ e. e ≡ Stopped.OutOfMemory };

    fn from(_e: AllocFailed<T>) -> Stopped {
        Stopped::OutOfMemory
    }
}
