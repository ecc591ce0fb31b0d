//! Filters: an expression over a catalogue, read of its text, and the records that it holds of.
#![tactic(auto)]

mod deciding;
mod filter;
mod holding;
mod marks;
mod memo;
mod passing;
mod places;
mod reading;
mod standing;
mod text;

pub use ax_expressions::{FilterError, FilterFault, FilterStop};
pub use filter::Filter;
pub use memo::Memo;
pub use reading::read_filter;
pub use text::read_expression;
