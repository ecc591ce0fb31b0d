//! The tree of an expansion file.

use crate::form::Form;
use ax_format::{Slots, Text};

/// The layout of the inside of the reserved expansion field (RE) of one category, as its file gives it.
#[derive(Drop)]
pub struct Expansion {
    pub category: u8,
    pub edition: Text,
    pub form: Form,
    pub slots: Slots,
}
