//! Bits of octet strings, in the order of the standard: bit 0 is the most significant bit of the first octet. Numbers
//! that stand at any bit, and outputs of bits over lent buffers. Nothing here takes memory.
#![tactic(auto)]

mod number;
mod output;
mod short;

pub use number::{bits_at, put_bits, signed_of};
pub use output::Out;
pub use short::short_bits_at;
