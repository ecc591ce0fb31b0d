//! Whether a block fits a specification. Nothing here takes memory.
ghost use Rattle.std.specs.Prelude.{◌≡◌, ◌↔◌, IsTrue, map};
ghost use Rattle.std.specs.List.{list_all};
ghost use Rattle.ax_format.specs.OfCode.{AreAfterSlot, BlockFits, record_fits};
ghost use Rattle.ax_format.specs.Plain.{item_tree};
ghost use Rattle.ax_format.specs.Specification.{uap_slot};

use ax_format::{Block, Entry, Record, Spec, UapSlot, fits_kind};

/// The entries after the one of this slot of the UAP, if there is one. None comes where that doesn't fit.
fn after_slot<'e>(
    spec: &Spec,
    number: u64,
    slot: &UapSlot,
    entries: &'e [Entry],
) -> Option<&'e [Entry]>
    ensures { AreAfterSlot number (uap_slot (map item_tree spec.now.items) slot.now) entries.now result }
{
    let Some((entry, later)) = entries.split_first() else {
        return Some(entries);
    };
    if u64::from(entry.slot) != number {
        return Some(entries);
    }
    match spec.item_of(slot) {
        None => Some(entries),
        Some(item) => {
            if fits_kind(&item.kind, &entry.value) {
                Some(later)
            } else {
                None
            }
        }
    }
}

/// Whether each entry is of a defined slot of the UAP, in ascending order, and fits its item's kind.
fn fits_record(spec: &Spec, one: &Record) -> bool
    ensures { result ≡ record_fits spec.now one.now }
{
    let mut number: u64 = 1;
    let mut rest = one.entries.as_slice();
    for slot in spec.uap.as_slice() {
        let Some(later) = after_slot(spec, number, slot, rest) else {
            return false;
        };
        number += 1;
        rest = later;
    }
    rest.is_empty()
}

fn fits_records(spec: &Spec, records: &[Record]) -> bool
    ensures { result ≡ list_all (record_fits spec.now) records.now }
{
    records.iter().all(|one| fits_record(spec, one))
}

/// Whether the block fits the specification: it is of the specification's category and has one or more records
/// of its shape; or it is opaque, of another category, and has one or more octets.
#[tactic(auto, using(ax_format::proofs::RecordFitting::blocks))]
pub fn fits(spec: &Spec, block: &Block) -> bool
    ensures { IsTrue result ↔ BlockFits spec.now block.now }
{
    match block {
        Block::Read { category, records } => {
            *category == spec.category
                && records.count() > 0
                && fits_records(spec, records.as_slice())
        }
        Block::Opaque { category, octets } => *category != spec.category && octets.count() > 0,
    }
}
