//! Copies of trees: the copy equals the original, contents and titles included.
ghost use Rattle.std.specs.Prelude.{◌≡◌, [], ◌∷◌, ◌++◌, ◌<◌, length, OnOk, IsOkAnd};

mod content;
mod kinds;
mod specs;
mod values;

use ax_lists::Sequence;
use std::alloc::AllocError;

/// Appends one more copy to those made so far, where there was memory for it.
fn push_copy<T: Drop>(made: &mut Sequence<T>, copy: Result<T, AllocError>) -> Result<(), AllocError>
    requires room { length made.old < 4294967295 }
    ensures { OnOk result (IsOkAnd copy (λ one. made.new ≡ made.old ++ one ∷ [])) }
{
    made.push(copy?)
}
