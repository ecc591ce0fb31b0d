//! Lines of the texts of blocks, read straight to canonical octets: no list of tokens and no tree of values is made. A line that has a
//! comment, or that needs more room than is lent, is left to the reader of tokens.
#![tactic(auto)]

mod blocks;
mod cursor;
mod explicit;
mod fixed;
mod gaps;
mod kinds;
mod laid;
mod moving;
mod names;
mod numbers;
mod pieces;
mod records;
mod runs;

pub use blocks::printed_body;
pub use laid::LaidBits;
pub use pieces::whole_octets;
