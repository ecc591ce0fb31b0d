//! Blocks as text, which can be read back, and as listings, which say what the values mean, from trees; all that `ax_text_form` has
//! stands under this crate's name too. The program prints while it reads octets, and stands on that crate alone.
#![tactic(auto)]

mod blocks;
mod fixed;
mod kinds;
mod listings;
mod paths;
mod records;

pub use ax_text_form::{HeldScale, Lister, NamedPlace, category_of, record_text, unquoted};
pub use blocks::{block_text, opaque_text};
pub use listings::{show_lines, show_opaque};
