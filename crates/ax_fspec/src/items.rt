//! The items after a presence field.
use crate::set::Presence;

/// The marked slots of a presence field, and the octet of the body after it, at which the first of their items begins.
#[derive(Clone, Copy)]
pub struct MarkedItems {
    pub marked: Presence,
    pub begin: u32,
}
