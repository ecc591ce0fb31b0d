//! Octets that are appended one piece after another, at a store or two a piece; and paths, with which lines begin.
#![tactic(auto)]

mod digits;
mod literal;
mod octets;
mod path;
mod place;
mod room;

pub use literal::Literal;
pub use octets::OctetBuffer;
pub use path::LinePath;
pub use room::make_room;
