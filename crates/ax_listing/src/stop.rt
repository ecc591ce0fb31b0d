//! Why a fixed kind isn't shown.
ghost use Rattle.std.specs.Prelude.{◌≡◌, ◌≤◌, IfOk, IfErr};
ghost use Rattle.ax_format.specs.InBounds.{IsWidth};
ghost use Rattle.ax_format.specs.Sizes.{longest_body};
ghost use Rattle.ax_listing.specs.Stopped.{IsBitAfter, IsStopped, IsUnitStop};
ghost use Rattle.ax_listing.specs.declared.stop.FixedStop.TheVariants as Stop;

use crate::position::BitPosition;
use ax_format::{BodyCause, BodyFault};
use ax_values::DecodeError;
use std::alloc::AllocError;

/// Why a fixed kind isn't shown.
#[derive(Clone, Copy)]
pub(crate) enum FixedStop {
    /// The body ends before its bits do.
    RunsOut,
    /// No memory was left for its lines.
    OutOfMemory,
}

impl From<AllocError> for FixedStop {
    ghost from_gives = { λ _ stop. stop ≡ Stop.OutOfMemory };

    fn from(_error: AllocError) -> FixedStop {
        FixedStop::OutOfMemory
    }
}

impl FixedStop {
    /// What it makes of a unit that begins at octet `at`: a unit runs out at its first bit.
    pub(crate) fn of_unit(self, at: u32) -> DecodeError
        requires { at ≤ longest_body }
        ensures { IsUnitStop self at result }
    {
        match self {
            FixedStop::RunsOut => DecodeError::Fault(BodyFault {
                cause: BodyCause::RunsOut,
                bit: 8 * at,
            }),
            FixedStop::OutOfMemory => DecodeError::OutOfMemory,
        }
    }
}

/// The bit after the `width` bits from there on. RunsOut comes where the body ends before they do: judged element by element, so
/// the width of a group isn't summed up before it is shown.
#[inline(always)]
pub(crate) fn bit_after(from: BitPosition<'_>, width: u32) -> Result<u32, FixedStop>
    requires width { IsWidth width }
    ensures end { IfOk result (IsBitAfter from.entry width) }
    ensures stop { IfErr result (IsStopped from.entry width) }
{
    let end = from.at + width;
    if end > 8 * from.body.len() as u32 {
        return Err(FixedStop::RunsOut);
    }
    Ok(end)
}
