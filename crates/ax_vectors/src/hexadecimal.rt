//! Octets written in hexadecimal.
ghost use Rattle.std.specs.Prelude.{◌≡◌, IfOk, IfErr, ◌⊎◌, Ok, Err};
ghost use Rattle.hex.specs.Hex.{decode_of};
ghost use Rattle.hex.specs.declared.error.FromHexError.TheVariants.{OutOfMemory};
ghost use Rattle.ax_vectors.specs.Digits.{without_blanks};

use hex::FromHexError;
use std::alloc::{AllocError, Global};

/// The octets that a text spells, two hexadecimal digits each, with any blanks between the digits. The error is that of
/// decoding the digits.
pub fn octets(alloc: Global, text: &str) -> Result<Vec<u8>, FromHexError>
    ensures ok { IfOk result (λ octets. decode_of (without_blanks text.now) ≡ Ok octets.items) }
    ensures err { IfErr result (λ error. (error ≡ OutOfMemory) ⊎ (decode_of (without_blanks text.now) ≡ Err error)) }
{
    let mut digits = Vec::new(alloc);
    for octet in text.as_bytes() {
        if *octet != b' ' {
            digits.push(*octet).map_err(AllocError::from)?;
        }
    }
    hex::decode(alloc, digits)
}
