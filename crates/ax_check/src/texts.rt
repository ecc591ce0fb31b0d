//! Paths of flaws that don't end with a name.
ghost use Rattle.std.specs.Prelude.{◌≡◌, codes, IfOk};
ghost use Rattle.ax_format.specs.Paths.{at};

use ax_format::{Text, at_word};
use std::alloc::{AllocError, Global};

/// The path of a counted or by-FX body.
pub(crate) fn at_body(alloc: Global, path: &Text) -> Result<Text, AllocError>
    ensures { IfOk result (λ made. made ≡ at path.now (codes "body")) }
{
    at_word(alloc, path, b"body")
}

/// The path of a spare.
pub(crate) fn at_spare(alloc: Global, path: &Text) -> Result<Text, AllocError>
    ensures { IfOk result (λ made. made ≡ at path.now (codes "spare")) }
{
    at_word(alloc, path, b"spare")
}

/// The path of the UAP.
pub(crate) fn at_uap(alloc: Global, path: &Text) -> Result<Text, AllocError>
    ensures { IfOk result (λ made. made ≡ at path.now (codes "uap")) }
{
    at_word(alloc, path, b"uap")
}
