//! What `filter` makes of each block.
#![tactic(auto)]

mod matching;
mod output;
mod views;

pub use views::FilterViews;
