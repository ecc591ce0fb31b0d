//! The grammar of specifications, both ways: from tokens to a tree, and from a tree to its text. Its reader is
//! public, for files that have slots in them as a specification has.
#![tactic(auto)]

mod error;
mod keyword;
mod octets;
mod printer;
mod printing;
mod reader;
mod reading;
mod rules;
mod slots;

pub use error::SyntaxError;
pub use keyword::Keyword;
pub use printing::print_spec;
pub use reader::SpecReader;
pub use reading::read_spec;
pub use slots::read_slots;
