//! Expansion files: layouts of the inside of the reserved expansion field (RE).
#![tactic(auto)]

mod accepted;
mod decode;
mod encode;
mod expansion;
mod fault;
mod field;
mod fitting;
mod form;
mod reading;

pub use accepted::{AcceptedExpansion, accept_expansion};
pub use ax_check::CheckError;
pub use ax_grammar::SyntaxError;
pub use ax_values::EncodeError;
pub use decode::decode_content;
pub use encode::encode_content;
pub use expansion::Expansion;
pub use fault::{ContentCause, ContentError};
pub use fitting::fits_content;
pub use form::Form;
pub use reading::read_expansion;
