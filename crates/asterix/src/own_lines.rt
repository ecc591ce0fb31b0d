//! The length of an outcome's own lines.
ghost use Rattle.std.specs.Prelude.{◌≡◌, length, IfOk};
ghost use Rattle.ax_command.specs.Lines.{lines_of};

use ax_command::{Outcome, write_lines};
use ax_endpoints::{Sink, SinkFailed};
use std::alloc::Global;

/// A sink that keeps all that it is given, and tells it. A call fails where memory is wanting.
#[derive(Drop)]
struct KeptLines {
    octets: Vec<u8>,
    faults: u64,
}

impl Sink for KeptLines {
    ghost use Rattle.std.specs.Prelude.{Some};

    ghost held = { λ s. Some s.octets.items };

    ghost faults = { λ s. s.faults };

    fn write(&mut self, piece: &[u8]) -> Result<usize, SinkFailed> {
        if self.octets.extend_from_slice(piece).is_err() {
            self.faults = self.faults.saturating_add(1);
            return Err(SinkFailed);
        }
        Ok(piece.len())
    }
}

/// How many octets the lines have that a run which ended so writes last. An `Err` is want of memory.
pub fn own_lines(alloc: Global, outcome: &Outcome) -> Result<usize, SinkFailed>
    ensures { IfOk result (λ n. n ≡ length (lines_of outcome.now)) }
{
    let mut kept = KeptLines {
        octets: Vec::new(alloc),
        faults: 0,
    };
    write_lines(&mut kept, outcome)?;
    Ok(kept.octets.len())
}
