//! The command `expand` over the blocks of an input: the content of each RE is read by an expansion file.
#![tactic(auto)]

mod contents;
mod lines;
mod records;
mod slot;
mod work;

pub use slot::re_slot;
pub use work::ExpandViews;
