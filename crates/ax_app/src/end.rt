//! How the block loop ends.
ghost use Rattle.std.specs.Prelude.{◌≡◌};
ghost use Rattle.ax_app.specs.Ends.{as_stream};
ghost use Rattle.ax_blocks.specs.declared.end.StreamEnd.TheVariants.{OutOfMemory};

use ax_blocks::{InputFault, StreamEnd};

/// How the block loop ends. Want of memory is no such end: a work has all its memory before the first block.
#[derive(Clone, Copy, Debug, PartialEq, Eq)]
pub enum DriveEnd {
    /// The input was read to its end.
    Done { blocks: u64 },
    /// The input has a fault.
    InputRefused { fault: InputFault },
    /// A record of that block, migrated, gives alone a data block of so many octets, more than one can have.
    MigratedTooLong { block: u64, octets: u32 },
    /// The input has more octets than the limit.
    InputTooLong,
    /// The input could not be read.
    ReadFault,
    /// The output could not be written.
    WriteFault,
    /// A line of a loss could not be written.
    ReportFault,
}

/// The end of a loop whose work takes no memory.
pub(crate) fn end_of(end: StreamEnd) -> DriveEnd
    requires { end ≡ OutOfMemory → ⊥ }
    ensures { as_stream result ≡ end }
{
    match end {
        StreamEnd::Done { blocks } => DriveEnd::Done { blocks },
        StreamEnd::Refused { fault } => DriveEnd::InputRefused { fault },
        StreamEnd::TooLong { block, octets } => DriveEnd::MigratedTooLong { block, octets },
        StreamEnd::InputTooLong => DriveEnd::InputTooLong,
        StreamEnd::ReadFault => DriveEnd::ReadFault,
        StreamEnd::WriteFault => DriveEnd::WriteFault,
        StreamEnd::ReportFault => DriveEnd::ReportFault,
        StreamEnd::OutOfMemory => unreachable!(),
    }
}
