ghost use Rattle.std.specs.Prelude.{◌≡◌, IfOk, OnOk, IfErr};
ghost use Rattle.ax_check.specs.Accepting.{WhyFlawed};
ghost use Rattle.ax_format.specs.OfCode.{HasNoFlaw};

use crate::spec_flaws::flaws;
use ax_format::{Flaws, Spec};
use std::alloc::Global;
use std::fmt::{self, Debug, Formatter, Write};
use std::marker::Model;
use thiserror::Error;

/// A specification without flaw. Contracts see it as that specification.
pub struct Accepted {
    spec: Spec,
}

impl Drop for Accepted {
    fn drop(self) {
        let Accepted { spec: _spec } = self;
    }
}

impl Model for Accepted {
    ghost use Rattle.ax_format.specs.OfCode.{HasNoFlaw};
    ghost use Rattle.ax_format.specs.contracts.spec.Spec as row;
    ghost use Rattle.ax_format.specs.declared.spec.Spec.{Spec};

    ghost Value = { Spec };

    ghost coded = { row.the_row.coded };

    ghost view = { λ a. a.spec };

    ghost invariant = { λ a. HasNoFlaw a.spec };
}

impl Accepted {
    /// The specification. It has no flaw.
    pub fn spec(&self) -> &Spec
        ensures spec { result.now ≡ self.now }
        ensures no_flaw { HasNoFlaw self.now }
    {
        &self.spec
    }
}

/// Why a specification isn't accepted.
#[derive(Drop, Error)]
pub enum CheckError {
    /// It has these flaws, at least one.
    #[error("the specification has flaws")]
    Flawed { flaws: Flaws },
    #[error("out of memory")]
    OutOfMemory,
}

impl Debug for CheckError {
    fn fmt<W: Write>(&self, f: &mut Formatter<W>) -> fmt::Result {
        match self {
            CheckError::Flawed { .. } => f.write_str("Flawed"),
            CheckError::OutOfMemory => f.write_str("OutOfMemory"),
        }
    }
}

/// Accepts a specification without flaw. Flawed comes exactly where it has flaws, with all of them in their order.
pub fn accept(alloc: Global, spec: Spec) -> Result<Accepted, CheckError>
    ensures same { IfOk result (λ accepted. accepted ≡ spec) }
    ensures no_flaw { OnOk result (HasNoFlaw spec) }
    ensures flawed { IfErr result (WhyFlawed spec) }
{
    let found = match flaws(alloc, &spec) {
        Ok(found) => found,
        Err(_) => return Err(CheckError::OutOfMemory),
    };
    if found.count() > 0 {
        return Err(CheckError::Flawed { flaws: found });
    }
    Ok(Accepted { spec })
}
