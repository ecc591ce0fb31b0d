//! Flat tables of specifications: one list of nodes in which each child stands before its parent.
//!
//! A codec is a specification without its titles, names and contents, so that octets are read by numbers alone.
#![tactic(auto)]

mod build;
mod codec;
mod extent;
mod node;
mod node_rows;

pub use build::compile_spec;
pub use codec::Codec;
pub use extent::Extent;
pub use node::{Links, Node, Nodes};
