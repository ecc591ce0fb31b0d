//! The one list type that all list types of the repository are names of, and room for octets.
#![tactic(auto)]

mod buffer;
mod sequence;

pub use buffer::zeros;
pub use sequence::Sequence;
