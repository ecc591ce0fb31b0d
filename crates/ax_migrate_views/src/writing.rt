//! The lines of what a record loses, written where those of its block are more than are kept. Nothing here takes memory.
ghost use Rattle.std.specs.Prelude.{◌≡◌, length};
ghost use Rattle.ax_moves.specs.Lost.{AreRuns, lines_below, record_lines};
ghost use Rattle.ax_moves.specs.Wholes.{whole_entries};
ghost use Rattle.ax_format.specs.Tree.{marked};
ghost use Rattle.ax_endpoints.specs.Changes.{Wrote, sink_change};
ghost use Rattle.ax_walk.specs.Placing.{IsPlaced};
ghost use Rattle.ax_walk.specs.Shown.{record_entries};

use ax_codec::Codec;
use ax_endpoints::{Sink, SinkFailed, write_text};
use ax_migration::{Loss, loss_line};
use ax_moves::{LONGEST, LostBelow, tell_keys};
use ax_walk::{Notes, PlacedSlots, Places, RecordView, place_record};

/// Writes the lines of the keys that a record loses: as one piece where they can be kept, and else those of one half of the keys
/// after those of the other. At `SinkFailed` a prefix was added, and the report counted a fault.
fn write_keys<R: Sink>(
    report: &mut R,
    whole: &PlacedSlots<'_, '_, '_>,
    lost: &LostBelow<'_, '_>,
    lines: &mut [u8],
) -> Result<(), SinkFailed>
    requires placed { IsPlaced whole.now }
    requires runs { AreRuns lost.now.keys.now }
    requires room { length lines.old ≡ 131067 }
    ensures written { Wrote (sink_change R.Sink report.old report.new) result (lines_below lost.now (marked (whole_entries whole.now))) }
    ensures room { length lines.new ≡ 131067 }
{
    let keys = lost.keys;
    let told = tell_keys(whole, lost, 0, lines);
    if told <= LONGEST {
        return write_text(report, &lines[..told as usize]);
    }
    if keys.len() == 1 {
        let key = &keys[0];
        let path = key.path;
        let loss = Loss {
            record_at: lost.name.number,
            path: &path.text,
        };
        return loss_line(report, lost.name.block, &loss);
    }
    let (front, later) = keys.split_at(keys.len() / 2);
    let first = LostBelow {
        name: lost.name,
        keys: front,
        depth: lost.depth,
    };
    write_keys(report, whole, &first, lines)?;
    let second = LostBelow {
        name: lost.name,
        keys: later,
        depth: lost.depth,
    };
    write_keys(report, whole, &second, lines)
}

/// Writes the lines of what a record loses, after one walk over it. At `SinkFailed` a prefix was added, and the report counted a
/// fault.
pub(crate) fn write_record<R: Sink>(
    report: &mut R,
    codec: &Codec,
    one: &RecordView<'_, '_>,
    lost: &LostBelow<'_, '_>,
    lines: &mut [u8],
) -> Result<(), SinkFailed>
    requires codec { one.now.codec.now ≡ codec.now }
    requires whole { lost.now.depth ≡ 0 }
    requires runs { AreRuns lost.now.keys.now }
    requires room { length lines.old ≡ 131067 }
    ensures written { Wrote (sink_change R.Sink report.old report.new) result (record_lines lost.now.name (record_entries one.now) lost.now.keys.now) }
    ensures room { length lines.new ≡ 131067 }
{
    let body = one.octets();
    let mut places = Places::new();
    let mut notes = Notes::new();
    if place_record(codec, body, 0, &mut notes, &mut places).is_none() {
        // The octets of a view's record spell one.
        unreachable!();
    }
    let whole = PlacedSlots {
        codec,
        slots: codec.slots.as_slice(),
        body,
        at: 0,
        places: &places,
    };
    write_keys(report, &whole, lost, lines)
}
