//! Bodies, judged and laid record by record as they move.
ghost use Rattle.std.specs.Prelude.{◌≡◌, ◌≤◌, length, IfOk, IfErr};
ghost use Rattle.ax_migrate_views.specs.Bodies.{IsRecordPlaced, LaysBody, placed_entries, record_canon_by};
ghost use Rattle.ax_migrate_views.specs.Kept.{KeepsRecords};
ghost use Rattle.ax_migrate_views.specs.Telling.{TellsKeys};
ghost use Rattle.ax_moves.specs.KnownMoves.{KnowsMoves};
ghost use Rattle.ax_moves.specs.Laying.{Gathers, Lays};
ghost use Rattle.ax_moves.specs.Lost.{AreRuns, record_lines};
ghost use Rattle.ax_format.specs.Sizes.{longest_body};
ghost use Rattle.ax_walk.specs.Views.{FailsThere, SpellsSome};

use crate::kept::kept_end;
use crate::migrator::Migrator;
use ax_format::BodyFault;
use ax_moves::{LostKey, RecordName, SlotMoves, lay_moved, lay_run, tell_record};
use ax_relation::Moves;
use ax_walk::{Notes, PlacedSlots, Places, RecordRows, place_record};

/// Lays a record as it moves, and answers how many octets were laid.
fn lay_record(
    whole: &PlacedSlots<'_, '_, '_>,
    moves: &Moves,
    known: &SlotMoves,
    at: u32,
    output: &mut [u8],
) -> u32
    requires placed { IsRecordPlaced whole.now }
    requires known { KnowsMoves whole.now.codec.now.nodes whole.now.codec.now.slots moves.now known.now }
    requires room { length output.old ≡ 131067 }
    ensures laid { Lays (record_canon_by moves.now whole.now) at result output.old output.new }
    ensures room { length output.new ≡ 131067 }
{
    lay_moved(whole, moves, known, at, output)
}

/// Lays the lines of what a record loses, and answers how many octets of lines were laid.
fn tell_losses(
    name: RecordName,
    whole: &PlacedSlots<'_, '_, '_>,
    keys: &[LostKey<'_>],
    at: u32,
    lines: &mut [u8],
) -> u32
    requires placed { IsRecordPlaced whole.now }
    requires runs { AreRuns keys.now }
    requires room { length lines.old ≡ 131067 }
    ensures told { Gathers (record_lines name (placed_entries whole.now) keys.now) at result lines.old lines.new }
    ensures room { length lines.new ≡ 131067 }
{
    tell_record(name, whole, keys, at, lines)
}

/// What was laid of a body: so many octets of the migrated block, and so many of the lines of what its records lose.
#[derive(Clone, Copy)]
pub struct Laid {
    pub octets: u32,
    pub lines: u32,
}

/// The keys of which a block's lines tell, and the block's number.
#[derive(Clone, Copy)]
pub(crate) struct ToldKeys<'k, 'p> {
    pub(crate) block: u64,
    pub(crate) keys: &'k [LostKey<'p>],
}

/// Lays the records of a body of 1 to 65,532 octets as they move, after a block's first three octets, and the lines of what
/// they lose, in one walk over the body. Records that stay as they are are laid as one piece where they follow one another. Where
/// the body fails, that is its first fault, by bits of the body from 0; some records before may have been laid.
pub(crate) fn lay_body(
    migrator: &Migrator<'_>,
    body: &[u8],
    lost: ToldKeys<'_, '_>,
    output: &mut [u8],
    lines: &mut [u8],
) -> Result<Laid, BodyFault>
    requires kept { KeepsRecords migrator.now.codec.now migrator.now.relation.now.moves lost.keys.now migrator.now.kept }
    requires runs { AreRuns lost.keys.now }
    requires size { (1 ≤ length body.now) × (length body.now ≤ longest_body) }
    requires room { length output.old ≡ 131067 }
    requires lines_room { length lines.old ≡ 131067 }
    ensures spelled { IfOk result (λ laid. SpellsSome migrator.now.codec.now body.now) }
    ensures laid { IfOk result (λ laid. LaysBody migrator.now.codec.now migrator.now.relation.now.moves body.now 3 laid.octets output.old output.new) }
    ensures told { IfOk result (λ laid. TellsKeys migrator.now.codec.now lost.entry body.now laid.lines lines.old lines.new) }
    ensures fault { IfErr result (λ fault. FailsThere migrator.now.codec.now body.now fault) }
    ensures room { length output.new ≡ 131067 }
    ensures lines_room { length lines.new ≡ 131067 }
{
    let codec = migrator.codec;
    let moves = migrator.relation.moves();
    let kept = &migrator.kept;
    let mut places = Places::new();
    let mut end = 3;
    let mut told = 0;
    let mut number = 0;
    let mut here = 0;
    // The octets from there up to `here` are those of records that stay, and still to be laid.
    let mut from = 0;
    let rows = RecordRows::of(codec);
    while (here as usize) < body.len() {
        if let Some(next) = kept_end(&rows, kept, body, here) {
            here = next;
            number += 1;
            continue;
        }
        let mut notes = Notes::new();
        let Some(next) = place_record(codec, body, here, &mut notes, &mut places) else {
            return Err(notes.fault);
        };
        let record = PlacedSlots {
            codec,
            slots: codec.slots.as_slice(),
            body,
            at: here,
            places: &places,
        };
        let name = RecordName {
            block: lost.block,
            number,
        };
        end = lay_run(body, from, here, end, output);
        end = lay_record(&record, moves, &migrator.known, end, output);
        told = tell_losses(name, &record, lost.keys, told, lines);
        here = next;
        from = next;
        number += 1;
    }
    Ok(Laid {
        octets: lay_run(body, from, here, end, output),
        lines: told,
    })
}
