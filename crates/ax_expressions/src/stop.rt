//! Why the text of an expression gives no filter.
ghost use Rattle.std.specs.Prelude.{◌≡◌};
ghost use Rattle.ax_expressions.specs.Texts.{stop_of_lexing, stop_of_reading};

use crate::error::FilterError;
use ax_tokens::LexError;

/// Why the text of an expression is refused. First its octets are judged, then its tokens, of which the smallest at fault
/// is named. Both are numbered from 0.
#[derive(Clone, Copy, Debug, PartialEq, Eq)]
pub enum FilterFault {
    /// The octet at that place fits nowhere.
    BadByte { at: u32 },
    /// The `{` that is that token is nested more than 16 deep.
    TooDeep { token: u32 },
    /// The first token through which no expression begins, or the count of the tokens where the expression is cut
    /// short.
    BadToken { token: u32 },
    /// The first path whose category has no specification, or whose names are no place of it.
    UnknownPath { token: u32 },
    /// The first path after `is` that leads to a place that isn't an element.
    NotAnElement { token: u32 },
}

/// Why a text gives no filter.
#[derive(Clone, Copy, Debug, PartialEq, Eq)]
pub enum FilterStop {
    /// The text is refused.
    Refused(FilterFault),
    /// No memory was left.
    OutOfMemory,
}

impl From<LexError> for FilterStop {
    ghost from_gives = { λ error stop. stop ≡ stop_of_lexing error };

    fn from(error: LexError) -> Self {
        match error {
            LexError::BadByte { at } => FilterStop::Refused(FilterFault::BadByte { at }),
            LexError::TooDeep { token } => FilterStop::Refused(FilterFault::TooDeep { token }),
            LexError::OutOfMemory => FilterStop::OutOfMemory,
        }
    }
}

impl From<FilterError> for FilterStop {
    ghost from_gives = { λ error stop. stop ≡ stop_of_reading error };

    fn from(error: FilterError) -> Self {
        match error {
            FilterError::BadToken { token } => FilterStop::Refused(FilterFault::BadToken { token }),
            FilterError::UnknownPath { token } => {
                FilterStop::Refused(FilterFault::UnknownPath { token })
            }
            FilterError::NotAnElement { token } => {
                FilterStop::Refused(FilterFault::NotAnElement { token })
            }
            FilterError::OutOfMemory => FilterStop::OutOfMemory,
        }
    }
}
