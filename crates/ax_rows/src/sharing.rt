//! A row that stands among the steps already.
ghost use Rattle.std.specs.Prelude.{◌↔◌, ◌<◌, ◌≤◌, ℕ, length, IfSome, IfNone, IsTrue};
ghost use Rattle.ax_rows.specs.Rows.{StandsBefore};

use crate::step::Step;

/// Whether the last steps, those from `first` on, stand at `place` too, before themselves.
fn stands_before(steps: &[Step], place: usize, first: usize) -> bool
    requires { first ≤ length steps.now }
    ensures { IsTrue result ↔ StandsBefore steps.now place first }
{
    let mut left = steps.len() - first;
    if place > first || first - place < left {
        return false;
    }
    while left > 0 {
        left -= 1;
        let one = steps[place + left];
        let other = steps[first + left];
        if one.skip != other.skip || one.link != other.link {
            return false;
        }
    }
    true
}

/// Where the last steps, those from `first` on, stand earlier, at `from` or later.
pub(crate) fn earlier_place(steps: &[Step], from: usize, first: usize) -> Option<usize>
    requires { first ≤ length steps.now }
    ensures some { IfSome result (λ place. StandsBefore steps.now place first) }
    ensures none { IfNone result ((place : ℕ) → from ≤ place → place < first → StandsBefore steps.now place first → ⊥) }
{
    for place in from..first {
        if stands_before(steps, place, first) {
            return Some(place);
        }
    }
    None
}
