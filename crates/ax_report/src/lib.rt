//! The pieces of the report's lines: texts, numbers in decimal, and the line of an entry of a block. Nothing here takes memory.
//!
//! At `SinkFailed` a prefix of what is to be written was added, not all of it, and the sink counted a fault.
#![tactic(auto)]

mod entry;
mod pieces;

pub use entry::write_entry;
pub use pieces::{
    write_number, write_numbered, write_numbered_text, write_three, write_two, write_two_numbers,
};
