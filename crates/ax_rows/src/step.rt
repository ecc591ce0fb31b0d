//! Steps of a row.

/// Octets to pass over, and then the link of a node whose value is walked over; the link 0 ends the row.
#[derive(Clone, Copy)]
pub struct Step {
    pub skip: u32,
    pub link: u32,
}
