//! The text of records, which can be read back, and the lines of listings, which say what the values mean.
#![tactic(auto)]

mod category_text;
mod characters;
mod fixed;
mod fractions;
mod kinds;
mod lister;
mod printer;
mod quantities;
mod quoted;
mod records;
mod remarks;
mod show;

pub use category_text::category_of;
pub use lister::{Lister, NamedPlace};
pub use quantities::HeldScale;
pub use quoted::unquoted;
pub use records::record_text;
