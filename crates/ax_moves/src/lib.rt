//! What the moves of a relation of two editions make of the octets of a record: its items laid anew, those that stay as they
//! are, and the lines of the keys that it loses. Nothing here takes memory for a record: what is known of the moves of each
//! compound, and which keys can be lost, is made before the input is read.
#![tactic(auto)]

mod bare;
mod by_slot;
mod fronts;
mod in_order;
mod keeping;
mod known_moves;
mod laying;
mod leading;
mod lost;
mod marks;
mod subitems;
mod telling;
mod there;
mod values;
mod whole;

pub use by_slot::{SLOTS, SlotMoves, are_ordered, know_moves, own_move};
pub use in_order::{lay_moved, lay_run};
pub use keeping::keeps;
pub use laying::LONGEST;
pub use leading::is_there;
pub use lost::{LostKey, lost_keys};
pub use telling::{LostBelow, RecordName, tell_keys, tell_record};
