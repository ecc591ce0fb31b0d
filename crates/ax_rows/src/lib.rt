//! Rows: by presence octet and the marks in it, the steps that lead over the values of the marked slots, made once for a set of slots.
#![tactic(auto)]

mod making;
mod sharing;
mod slot_rows;
mod step;

pub use making::NO_ROW;
pub use slot_rows::{Rows, SlotRows};
pub use step::Step;
