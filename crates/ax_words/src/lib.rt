//! The words of a command line, read by `clap`: exactly the lines that they may be.
#![tactic(auto)]

mod builder;
mod error;
mod line;
mod number;
mod reading;
mod shape;
mod verb;

pub use error::WordsError;
pub use line::{Line, WordText, WordTexts};
pub use reading::read_words;
