//! The codecs of accepted specifications and of catalogues.
#![tactic(auto)]

mod codecs;
mod compiling;

pub use ax_codec::{Codec, Links, Node, Nodes};
pub use codecs::{CodecList, Codecs};
pub use compiling::compile;
