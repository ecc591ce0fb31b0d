//! Presence fields (FSPEC and compound primary subfields): sets of slots, the fields that mark them, and the faults of
//! what is no such field. Nothing here takes memory.
//!
//! What a front of a body's octets spells is said here too, as a function (`specs/Reading.antt`) of which the contracts of the
//! codecs speak; of it only the units of a body are run: counters, FX bits and the ends of runs.
#![tactic(auto)]

mod half;
mod items;
mod mask;
mod reading;
mod set;
mod slots;
mod units;
mod writing;

pub use items::MarkedItems;
pub use mask::SlotMask;
pub use reading::read_presence;
pub use set::Presence;
pub use slots::MarkedSlots;
pub use units::{count_at, ends_with_fx, has_fx, run_end};
pub use writing::write_presence;
