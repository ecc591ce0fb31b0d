//! What the commands hold of kinds and look at for each value: made once of a specification, or found without a look at more
//! slots than a presence field has room for.
#![tactic(auto)]

mod build;
mod by_number;
mod fields;
mod items;
mod kinds;
mod lines;
mod parts;
mod sizes;

pub use by_number::EntriesByNumber;
pub use fields::{PresenceSlot, read_field};
pub use items::HeldItems;
pub use kinds::{
    HeldContent, HeldFixed, HeldKind, HeldMember, HeldMembers, HeldPart, HeldParts, HeldSlot,
    HeldSlots,
};
pub use lines::{HeldQuantity, LineMaker, NumberLines, ShortElement};
