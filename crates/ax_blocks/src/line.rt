//! The line of the report for a fault of the input. It is written in pieces and takes no memory.
ghost use Rattle.std.specs.Prelude.{◌≡◌, ◌++◌, codes};
ghost use Rattle.ax_endpoints.specs.Changes.{Wrote, sink_change};
ghost use Rattle.ax_report.specs.Lines.{numbered};
ghost use Rattle.ax_blocks.specs.Lines.{cause_name, fault_end, fault_line};

use crate::end::{Cause, InputFault};
use ax_endpoints::{Sink, SinkFailed};
use ax_report::{write_numbered, write_three};

fn cause_text(cause: Cause) -> &'static [u8]
    ensures { result.now ≡ cause_name cause }
{
    match cause {
        Cause::EndsInHeader => b"EndsInHeader",
        Cause::BadLen => b"BadLen",
        Cause::EndsInBlock => b"EndsInBlock",
        Cause::RunsOut => b"RunsOut",
        Cause::UndefinedSlot => b"UndefinedSlot",
        Cause::PresenceTooLong => b"PresenceTooLong",
        Cause::ExtensionPastEnd => b"ExtensionPastEnd",
        Cause::BadExplicitLength => b"BadExplicitLength",
    }
}

/// Writes a space and the cause of a fault, up to the end of its line.
fn write_cause<K: Sink>(sink: &mut K, cause: Cause) -> Result<(), SinkFailed>
    ensures { Wrote (sink_change K.Sink sink.old sink.new) result (codes " " ++ (cause_name cause ++ codes "\n")) }
{
    write_three(sink, b" ", cause_text(cause), b"\n")
}

/// Writes the bit and the cause of a fault, up to the end of its line.
#[tactic(auto, using(ax_endpoints::proofs::Pieces::pieces))]
fn write_fault_end<K: Sink>(sink: &mut K, fault: InputFault) -> Result<(), SinkFailed>
    ensures { Wrote (sink_change K.Sink sink.old sink.new) result (fault_end fault) }
{
    write_numbered(sink, b" bit ", fault.bit as u64)?;
    write_cause(sink, fault.cause)
}

/// Writes the line `refused block N bit K CAUSE` of a fault of the input, up to its line feed. At `SinkFailed` a prefix of it
/// was added, not all of it, and the sink counted a fault.
#[tactic(auto, using(ax_endpoints::proofs::Pieces::pieces))]
pub fn write_fault_line<K: Sink>(sink: &mut K, fault: InputFault) -> Result<(), SinkFailed>
    ensures { Wrote (sink_change K.Sink sink.old sink.new) result (fault_line fault) }
{
    write_numbered(sink, b"refused block ", fault.block)?;
    write_fault_end(sink, fault)
}
