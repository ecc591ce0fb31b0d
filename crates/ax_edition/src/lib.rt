//! The relation of two editions of one category: which named paths and parts both have, with the same meaning, and where these stand
//! in each.
#![tactic(auto)]

mod index;
mod known;
mod level;
mod moves;
mod numbers;
mod record_items;
mod relating;
mod relation;
mod sameness;
mod way;

pub use ax_relation::{Move, Moves, Relation, RelationPath, RelationPaths};
pub use index::{Index, NamedSlot, index_below, index_items};
pub use record_items::{SlotItems, slot_items};
pub use relation::{RelateError, relate};
pub use sameness::{is_shared, same_content, same_counter, same_last, same_parts, shared_parts};
