//! Acceptance: which category files are sound, where a path leads, and the catalogue of accepted specifications.
#![tactic(auto)]

mod accepted;
mod catalogue;
mod elements;
mod fixed_flaws;
mod kind_flaws;
mod names;
mod places;
mod spec_flaws;
mod texts;
mod widths;

pub use accepted::{Accepted, CheckError, accept};
pub use ax_format::{Flaw, FlawKind, Flaws};
pub use catalogue::{AddError, Catalogue};
pub use spec_flaws::flaws;
