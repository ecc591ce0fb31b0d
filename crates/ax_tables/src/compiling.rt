//! The codec of an accepted specification.
ghost use Rattle.std.specs.Prelude.{IfOk};
ghost use Rattle.ax_format.specs.Plain.{spec_tree};
ghost use Rattle.ax_codec.specs.Standing.{IsCompiled};

use ax_check::Accepted;
use ax_codec::{Codec, compile_spec};
use std::alloc::{AllocError, Global};

/// The table of an accepted specification. It stands for that specification.
pub fn compile(alloc: Global, accepted: &Accepted) -> Result<Codec, AllocError>
    ensures { IfOk result (λ codec. IsCompiled codec (spec_tree accepted.now)) }
{
    compile_spec(alloc, accepted.spec())
}
