//! Blocks by their numbers.
use ax_format::RawBlock;

/// A block of an input, and its number there, from 0, by which its lines and its listing name it.
#[derive(Clone, Copy)]
pub struct NumberedBlock<'r, 'b> {
    pub number: u64,
    pub raw: &'r RawBlock<'b>,
}
