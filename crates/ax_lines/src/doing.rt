//! One line of a line command: judged as a whole, then written.
ghost use Rattle.std.specs.Prelude.{◌≤◌, length};
ghost use Rattle.ax_lines.specs.Commands.{KeepsTo};
ghost use Rattle.ax_lines.specs.Ending.{longest_line};
ghost use Rattle.ax_lines.specs.Taking.{DoesLine};
ghost use Rattle.ax_endpoints.specs.Changes.{sink_change};

use crate::end::LinesEnd;
use crate::work::{LineStop, LineWork};
use ax_endpoints::{Sink, write_all_of};

/// Takes the line of that number, and writes its octets, where it has a result, as one piece. It answers how many results
/// were written, one or none; or the end of the run at this line.
#[tactic(auto, using(crate::proofs::LineSteps::line_steps))]
pub fn do_line<W: LineWork, K: Sink>(
    work: &mut W,
    out: &mut K,
    number: u64,
    line: &[u8],
) -> Result<u64, LinesEnd<W::Fault>>
    requires sound { W.sound work.old }
    requires short { length line.now ≤ longest_line }
    ensures does { DoesLine (W.command work.old) number line.now (sink_change K.Sink out.old out.new) result }
    ensures out_later { K.faults out.old ≤ K.faults out.new }
    ensures same { KeepsTo (W.command work.old) (W.command work.new) }
    ensures still_sound { W.sound work.new }
{
    match work.take(number, line) {
        Ok(true) => match write_all_of(out, work.octets()) {
            Ok(()) => Ok(1),
            Err(_) => Err(LinesEnd::WriteFault),
        },
        Ok(false) => Ok(0),
        Err(LineStop::Refused(fault)) => Err(LinesEnd::Refused {
            line: number,
            fault,
        }),
        Err(LineStop::OutOfMemory) => Err(LinesEnd::OutOfMemory),
    }
}
