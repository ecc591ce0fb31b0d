//! Block texts read back: from a line's tokens to the block whose text they are.
//!
//! Which tokens a block's text has is the definition of `ax_text_form`, from which `block_text` prints too. Here are the
//! languages that it gives for each rule, and a reader of each that says where it stops.
#![tactic(auto)]

mod blocks;
mod catalogue_items;
mod categories;
mod error;
mod extended;
mod fixed;
mod kinds;
mod numbers;
mod octets;
mod reading;
mod records;

pub use ax_uap::CatalogueItems;
pub use catalogue_items::items_of;
pub use error::TextError;
pub use numbers::short_number;
pub use reading::{SizedBlock, read_block_over, read_block_text};
