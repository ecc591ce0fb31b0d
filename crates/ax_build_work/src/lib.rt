//! `build`: the canonical form of the block whose text each line of an input is.
#![tactic(auto)]

mod building;
mod fault;
mod opaque;
mod printed;
mod work;

pub use ax_lines::TextFault;
pub use work::build_lines;
