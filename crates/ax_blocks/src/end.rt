//! How a run over a stream of blocks ends.
ghost use Rattle.std.specs.Prelude.{◌≡◌, ◌≤◌};
ghost use Rattle.ax_blocks.specs.Ending.{body_fault, cause_of, refused_at, error_end, IsShort, stop_end};

use crate::next_error::NextError;
use crate::work::WorkStop;
use ax_format::{BodyCause, BodyFault};

/// The cause of a fault of the input.
#[derive(Clone, Copy, Debug, PartialEq, Eq)]
pub enum Cause {
    /// Fewer than three octets are left.
    EndsInHeader,
    /// LEN is 0 to 3.
    BadLen,
    /// Fewer octets are left than LEN says.
    EndsInBlock,
    /// A presence octet, a counter, a length octet, a fixed run, a part or an occurrence with its FX, or an explicit
    /// content doesn't fit in what is left of the body.
    RunsOut,
    /// A presence bit is set whose slot is spare or past the last.
    UndefinedSlot,
    /// FX is set in the last presence octet that the slots need.
    PresenceTooLong,
    /// FX is set in the last part that the specification has.
    ExtensionPastEnd,
    /// A length octet, which counts itself, is 0.
    BadExplicitLength,
}

/// The first fault of the input: its cause, the number of its data block from 0, and its bit from 0 at the
/// block's first bit.
#[derive(Clone, Copy, Debug, PartialEq, Eq)]
pub struct InputFault {
    pub cause: Cause,
    pub block: u64,
    pub bit: u32,
}

impl InputFault {
    /// The fault of the body of the block of that number, whose bits follow those of CAT and LEN.
    pub fn of_body(block: u64, fault: BodyFault) -> InputFault
        requires { fault.bit ≤ 524256 }
        ensures { result ≡ body_fault block fault.bit fault.cause }
    {
        InputFault {
            cause: input_cause(fault.cause),
            block,
            bit: HEADER_BITS + fault.bit,
        }
    }
}

/// How a run over a stream of blocks ends.
#[derive(Clone, Copy, Debug, PartialEq, Eq)]
pub enum StreamEnd {
    /// The input was read to its end.
    Done { blocks: u64 },
    /// The input has a fault.
    Refused { fault: InputFault },
    /// The input has more octets than the limit.
    InputTooLong,
    /// A record of that block makes a data block of so many octets, more than one can have.
    TooLong { block: u64, octets: u32 },
    /// The input could not be read.
    ReadFault,
    /// The output could not be written.
    WriteFault,
    /// A line of the report could not be written.
    ReportFault,
    /// Want of memory.
    OutOfMemory,
}

/// The bits of CAT and LEN.
const HEADER_BITS: u32 = 24;

/// The end for a refusal of the reader, after this many blocks.
pub fn reader_end(error: NextError, blocks: u64) -> StreamEnd
    ensures { result ≡ error_end blocks error }
{
    match error {
        NextError::ReadFault => StreamEnd::ReadFault,
        NextError::InputTooLong => StreamEnd::InputTooLong,
        NextError::BadLen => refused(Cause::BadLen, blocks, 8),
        NextError::EndsInHeader { bit } => refused(Cause::EndsInHeader, blocks, bit),
        NextError::EndsInBlock { bit } => refused(Cause::EndsInBlock, blocks, bit),
    }
}

fn refused(cause: Cause, block: u64, bit: u32) -> StreamEnd
    ensures { result ≡ refused_at cause block bit }
{
    StreamEnd::Refused {
        fault: InputFault { cause, block, bit },
    }
}

fn input_cause(cause: BodyCause) -> Cause
    ensures { result ≡ cause_of cause }
{
    match cause {
        BodyCause::RunsOut => Cause::RunsOut,
        BodyCause::UndefinedSlot => Cause::UndefinedSlot,
        BodyCause::PresenceTooLong => Cause::PresenceTooLong,
        BodyCause::ExtensionPastEnd => Cause::ExtensionPastEnd,
        BodyCause::BadExplicitLength => Cause::BadExplicitLength,
    }
}

/// The end for a block that isn't written whole, after this many.
pub fn work_end(stop: WorkStop, blocks: u64) -> StreamEnd
    requires { IsShort stop }
    ensures { result ≡ stop_end blocks stop }
{
    match stop {
        WorkStop::Fault(fault) => StreamEnd::Refused {
            fault: InputFault::of_body(blocks, fault),
        },
        WorkStop::TooLong { octets } => StreamEnd::TooLong {
            block: blocks,
            octets,
        },
        WorkStop::WriteFault => StreamEnd::WriteFault,
        WorkStop::ReportFault => StreamEnd::ReportFault,
        WorkStop::OutOfMemory => StreamEnd::OutOfMemory,
    }
}
