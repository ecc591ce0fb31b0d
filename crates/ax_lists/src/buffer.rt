//! Room for octets.
ghost use Rattle.std.specs.Prelude.{◌≡◌, length, IfOk};

use std::alloc::{AllocError, Global};

/// So many octets of 0: the room of a reader or of an output. The octets stand in a function of their own, so that no proof
/// spells them out.
pub fn zeros(alloc: Global, count: usize) -> Result<Vec<u8>, AllocError>
    ensures { IfOk result (λ made. length made.items ≡ count) }
{
    vec![in alloc; 0; count]
}
