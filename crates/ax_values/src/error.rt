//! Why octets aren't decoded, and a block isn't encoded.
ghost use Rattle.std.specs.Prelude.{◌≡◌};
ghost use Rattle.ax_values.specs.declared.error.DecodeError.TheVariants as Decoding;
ghost use Rattle.ax_values.specs.declared.error.EncodeError.TheVariants as Encoding;

use ax_format::BodyFault;
use std::alloc::AllocError;
use thiserror::Error;

/// Why octets spell no value, no record or no block.
#[derive(Debug, Drop, Error)]
pub enum DecodeError {
    /// Their first fault.
    #[error("{0:?}")]
    Fault(BodyFault),
    /// No memory was left for the value.
    #[error("out of memory")]
    OutOfMemory,
}

impl From<AllocError> for DecodeError {
    ghost from_gives = { λ _ e. e ≡ Decoding.OutOfMemory };

    fn from(_e: AllocError) -> DecodeError {
        DecodeError::OutOfMemory
    }
}

impl From<BodyFault> for DecodeError {
    ghost from_gives = { λ fault e. e ≡ Decoding.Fault fault };

    fn from(fault: BodyFault) -> DecodeError {
        DecodeError::Fault(fault)
    }
}

/// Why a block has no octets.
#[derive(Debug, Drop, Error)]
pub enum EncodeError {
    /// Its canonical form has that many octets, capped at 2^64 - 1, where a block has at most 65,535.
    #[error("the block has {octets} octets")]
    TooLong { octets: u64 },
    /// No memory was left for the octets.
    #[error("out of memory")]
    OutOfMemory,
}

impl From<AllocError> for EncodeError {
    ghost from_gives = { λ _ e. e ≡ Encoding.OutOfMemory };

    fn from(_e: AllocError) -> EncodeError {
        EncodeError::OutOfMemory
    }
}
