//! Why nothing is built of a line.
ghost use Rattle.std.specs.Prelude.{◌≡◌};
ghost use Rattle.ax_build_work.specs.Stops.{stop_of_lexing, stop_of_reading};
ghost use Rattle.ax_build_work.specs.declared.fault.BuildStop.TheVariants as Stop;

use ax_block_reader::TextError;
use ax_lines::TextFault;
use ax_tokens::LexError;
use std::alloc::AllocError;

/// Why nothing is built of a line.
#[derive(Clone, Copy)]
pub(crate) enum BuildStop {
    /// The line is refused.
    Refused(TextFault),
    /// No memory was left for it.
    OutOfMemory,
}

impl From<LexError> for BuildStop {
    ghost from_gives = { λ error stop. stop ≡ stop_of_lexing error };

    fn from(error: LexError) -> BuildStop {
        match error {
            LexError::BadByte { at } => BuildStop::Refused(TextFault::BadByte { at }),
            LexError::TooDeep { token } => BuildStop::Refused(TextFault::TooDeep { token }),
            LexError::OutOfMemory => BuildStop::OutOfMemory,
        }
    }
}

impl From<TextError> for BuildStop {
    ghost from_gives = { λ error stop. stop ≡ stop_of_reading error };

    fn from(error: TextError) -> BuildStop {
        match error {
            TextError::BadToken { token } => BuildStop::Refused(TextFault::BadToken { token }),
            TextError::TooLong { octets } => BuildStop::Refused(TextFault::TooLong { octets }),
            TextError::OutOfMemory => BuildStop::OutOfMemory,
        }
    }
}

impl From<AllocError> for BuildStop {
    ghost from_gives = { λ _ stop. stop ≡ Stop.OutOfMemory };

    fn from(_error: AllocError) -> BuildStop {
        BuildStop::OutOfMemory
    }
}
