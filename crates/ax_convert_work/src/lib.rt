//! The command `convert` over the blocks of an input: migration in which quantities under another scale are converted.
#![tactic(auto)]

mod blocks;
mod choosing;
mod making;
mod standing;
mod work;
mod writing;

pub use choosing::ConvertBlocks;
pub use work::ConvertTrees;
