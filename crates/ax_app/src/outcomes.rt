//! The outcomes for ends of tasks.
ghost use Rattle.std.specs.Prelude.{◌≡◌};
ghost use Rattle.ax_command.specs.Outcomes.{outcome_of_end};
ghost use Rattle.ax_app.specs.Ends.{as_stream};
ghost use Rattle.ax_app.specs.Salvages.{outcome_of_salvage, refused_at};

use crate::end::DriveEnd;
use ax_command::{Cause, InputFault, Outcome};
use ax_salvage::SalvageEnd;

/// The outcome for the end of a block loop that takes no memory.
pub(crate) fn outcome_of(end: DriveEnd) -> Outcome
    ensures { result ≡ outcome_of_end (as_stream end) }
{
    match end {
        DriveEnd::Done { blocks } => Outcome::Done { blocks },
        DriveEnd::InputRefused { fault } => Outcome::InputRefused { fault },
        DriveEnd::MigratedTooLong { block, octets } => Outcome::MigratedTooLong { block, octets },
        DriveEnd::InputTooLong => Outcome::InputTooLong,
        DriveEnd::ReadFault => Outcome::ReadFault,
        DriveEnd::WriteFault => Outcome::WriteFault,
        DriveEnd::ReportFault => Outcome::ReportFault,
    }
}

fn refused_at(cause: Cause, block: u64, bit: u32) -> Outcome
    ensures { result ≡ refused_at cause block bit }
{
    Outcome::InputRefused {
        fault: InputFault { cause, block, bit },
    }
}

/// The bit of LEN in a block.
const LEN_BIT: u32 = 8;

/// The outcome for the end of `salvage`. Where framing ends is the input's fault.
pub(crate) fn outcome_of_salvage(end: SalvageEnd) -> Outcome
    ensures { result ≡ outcome_of_salvage end }
{
    match end {
        SalvageEnd::Done { blocks } => Outcome::Done { blocks },
        SalvageEnd::EndsInHeader { block, bit } => refused_at(Cause::EndsInHeader, block, bit),
        SalvageEnd::BadLen { block } => refused_at(Cause::BadLen, block, LEN_BIT),
        SalvageEnd::EndsInBlock { block, bit } => refused_at(Cause::EndsInBlock, block, bit),
        SalvageEnd::InputTooLong => Outcome::InputTooLong,
        SalvageEnd::ReadFault => Outcome::ReadFault,
        SalvageEnd::WriteFault => Outcome::WriteFault,
        SalvageEnd::ReportFault => Outcome::ReportFault,
    }
}
