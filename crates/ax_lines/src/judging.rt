//! What octets show: a line, or an end of the lines.
ghost use Rattle.std.specs.Prelude.{◌≤◌, ◌<◌, IfSome, IfOk};
ghost use Rattle.ax_lines.specs.Judging.{IsCut, JudgesShown};

use crate::line_error::LineError;

/// Where a line at the front of octets ends: how many are its own, and how many with its line feed.
#[derive(Clone, Copy)]
pub struct Cut {
    pub line: usize,
    pub whole: usize,
}

// Cuts that many octets at their first line feed, or after all of them.
fn line_cut(feed: Option<usize>, count: usize) -> Cut
    requires there { IfSome feed (λ at. at < count) }
    ensures { IsCut feed count result }
{
    match feed {
        Some(at) => Cut {
            line: at,
            whole: at + 1,
        },
        None => Cut {
            line: count,
            whole: count,
        },
    }
}

/// What that many octets show, with the place of the first line feed among them: up to a line feed, or more than either
/// limit allows, or up to the end of the input. `room` is what the limit on the input leaves for them. None where there
/// are none.
#[tactic(auto, using(crate::proofs::Judged::judged))]
pub fn judge(
    feed: Option<usize>,
    count: usize,
    line_limit: u64,
    room: u64,
) -> Result<Option<Cut>, LineError>
    requires there { IfSome feed (λ at. at < count) }
    ensures within { IfOk result (λ found. IfSome found (λ cut. (cut.line ≤ cut.whole) × (cut.whole ≤ count))) }
    ensures shows { JudgesShown feed count line_limit room result }
{
    let cut = line_cut(feed, count);
    if cut.line as u64 <= line_limit && cut.whole as u64 <= room {
        return if cut.whole == 0 {
            Ok(None)
        } else {
            Ok(Some(cut))
        };
    }
    if line_limit < room {
        Err(LineError::LineTooLong)
    } else {
        Err(LineError::InputTooLong)
    }
}
