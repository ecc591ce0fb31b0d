//! An input, an output and a report, tied together: what is held back for the output and for the report is written before each
//! read of the input, the lines of a block before its octets.
#![tactic(auto)]

mod faces;
mod puts;
mod streams;

pub use faces::{TiedReader, TiedReport, TiedWriter};
pub use streams::{Closed, Ending, TiedStreams};

#[cfg(test)]
mod tests;
