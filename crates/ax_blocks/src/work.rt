//! What a block command does with one block.
ghost use Rattle.std.specs.Prelude.{◌≡◌, List, [], ◌∷◌, ◌++◌, ℕ, Bool, IsTrue, IsErrOf};
ghost use Rattle.ax_blocks.specs.declared.work.WorkStop.TheVariants.{OutOfMemory};
ghost use Rattle.ax_blocks.specs.Reader.{raw_tree};
ghost use Rattle.ax_format.specs.Framing.{RawTree};
ghost use Rattle.ax_endpoints.specs.Changes.{sink_change};
ghost use Rattle.ax_blocks.specs.Commands.{BlockCommand};
ghost use Rattle.ax_blocks.specs.BlockTaking.{TakesRaw, WritesOctets};

use ax_endpoints::{Sink, write_all_of};
use ax_format::{BodyFault, RawBlock};

/// Why a block isn't written whole.
#[derive(Clone, Copy)]
pub enum WorkStop {
    /// The first fault of its body, with its bit in the body.
    Fault(BodyFault),
    /// A record of it makes a data block of that many octets, more than one can have.
    TooLong { octets: u32 },
    /// Its octets could not be written.
    WriteFault,
    /// A line of its report could not be written.
    ReportFault,
    /// No memory was left for it.
    OutOfMemory,
}

/// What a block command does with the blocks of an input, one after another.
pub trait BlockWork {
    // The command: its catalogue, and its answer to each block.
    ghost command: { Self → BlockCommand };

    // What the work relies on from one block to the next.
    ghost sound: { Self → Type 0 };

    // What it keeps, since it was the first, of the blocks that it was given, in order.
    ghost remembers: { Self → Self → List RawTree → Type 0 };

    // Whether it takes memory.
    ghost takes_memory: { Bool };

    /// Judges the whole block of that number, then writes its lines on the report, and after all of them its octets on the
    /// output: each data block, text line or listing by one call of `write_all_of`. Nothing is written of a block that is
    /// refused, no octet where a line failed, and at `WriteFault` all of its lines and a prefix of its octets.
    fn take<R: Sink, K: Sink>(
        &mut self,
        number: u64,
        raw: &RawBlock<'_>,
        report: &mut R,
        out: &mut K,
    ) -> Result<(), WorkStop>
        requires sound { sound self.old }
        ensures takes { TakesRaw (command self.old) number raw.now (sink_change K.Sink out.old out.new) (sink_change R.Sink report.old report.new) result }
        ensures memory { IsErrOf result OutOfMemory → IsTrue takes_memory }
        ensures remembers { (first : Self) (raws : List RawTree) → remembers first self.old raws → remembers first self.new (raws ++ raw_tree raw.now ∷ []) }
        ensures same { command self.new ≡ command self.old }
        ensures still_sound { sound self.new };
}

/// Writes octets of a block as one piece. At `WriteFault`, the one refusal, a prefix of them was added.
pub fn write_piece<K: Sink>(out: &mut K, octets: &[u8]) -> Result<(), WorkStop>
    ensures { WritesOctets (sink_change K.Sink out.old out.new) octets.now result }
{
    match write_all_of(out, octets) {
        Ok(()) => Ok(()),
        Err(_) => Err(WorkStop::WriteFault),
    }
}
