//! Why nothing is made of a block.

use ax_format::BodyFault;

/// Why nothing is made of a block.
#[derive(Clone, Copy)]
pub enum BlockStop {
    /// The first fault of its body, with its bit in the body.
    Fault(BodyFault),
    /// No memory was left for it.
    OutOfMemory,
}
