//! The items of a UAP, each looked up once, and what is held of the specifications of a catalogue, by category.
#![tactic(auto)]

mod by_category;
mod items;

pub use by_category::{ByCategory, CatalogueItems, OfSpec};
pub use items::UapItems;
