//! Whether something in a block may be converted, told by the view of it. Nothing here takes memory.
ghost use Rattle.std.specs.Prelude.{◌≡◌};
ghost use Rattle.ax_convert_work.specs.Standing.{SomeStands};
ghost use Rattle.ax_rescale.specs.Converts.{stands_in};
ghost use Rattle.ax_walk.specs.Shown.{record_entries};

use ax_walk::{BlockView, RecordView};

/// Whether a value stands in one of the slots of a record.
#[tactic(auto, using(crate::proofs::StandingValues::in_slots))]
fn stands_in(slots: &[u32], one: &RecordView<'_, '_>) -> bool
    ensures { result ≡ stands_in slots.now (record_entries one.now) }
{
    for slot in slots {
        if one.item(*slot).is_some() {
            return true;
        }
    }
    false
}

/// Whether a value stands in one of the slots, in a record of a view.
pub(crate) fn some_stands(slots: &[u32], view: &BlockView<'_, '_>) -> bool
    ensures { SomeStands slots.now view.now.codec.now view.now.body.now result }
{
    let mut later = view.records();
    while let Some(one) = later.next() {
        if stands_in(slots, &one) {
            return true;
        }
    }
    false
}
