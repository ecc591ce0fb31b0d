//! Limits on what is taken from the outside.

/// The most octets that an input may have: 1,099,511,627,776.
pub const LONGEST_INPUT: u64 = 1 << 40;
