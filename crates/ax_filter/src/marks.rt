//! The marked slots of a record.
ghost use Rattle.std.specs.Prelude.{◌≡◌};
ghost use Rattle.ax_expressions.specs.Plans.{MarkEach};
ghost use Rattle.ax_walk.specs.Shown.{record_entries};

use ax_codec::Codec;
use ax_fspec::{Presence, read_presence};
use ax_walk::RecordView;

/// The marked slots of a record under that codec, read from its presence field alone.
#[inline]
pub fn marked_slots(codec: &Codec, one: &RecordView<'_, '_>) -> Presence
    ensures { one.now.codec.now ≡ codec.now → MarkEach result (record_entries one.now) }
{
    let mut marked = Presence::empty();
    match read_presence(&codec.mask, one.octets(), 0, &mut marked) {
        Ok(_after) => marked,
        Err(_) => Presence::empty(),
    }
}
