//! What a command reads from and writes to.
use ax_endpoints::{Sink, Source};

/// The source of a command's input and the sinks of its output and its report, lent to it.
#[derive(Drop)]
pub(crate) struct Channels<'o, S: Source, K: Sink, R: Sink> {
    pub(crate) source: &'o mut S,
    pub(crate) out: &'o mut K,
    pub(crate) report: &'o mut R,
}
