//! Why a line reader gives no line.
use thiserror::Error;

/// The refusals of a line reader.
#[derive(Clone, Copy, Debug, PartialEq, Eq, Error)]
pub enum LineError {
    /// The octet after the limit on the input is there.
    #[error("the input is longer than its limit")]
    InputTooLong,
    /// The octet after the limit on a line is there, in one line.
    #[error("a line is longer than its limit")]
    LineTooLong,
    /// A read failed.
    #[error("a read failed")]
    ReadFault,
}
