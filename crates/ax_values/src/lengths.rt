//! How many octets the canonical form of a block has, over the items of a UAP. Nothing here takes memory.
ghost use Rattle.std.specs.Prelude.{◌≡◌};
ghost use Rattle.ax_format.specs.Lengths.{capped, octets, octets_where, presence_octets, record_octets, records_octets};
ghost use Rattle.ax_format.specs.OfCode.{BlockFits, HasNoFlaw, block_length};
ghost use Rattle.ax_format.specs.Plain.{value_tree};
ghost use Rattle.ax_values.specs.Writing.{item_kind};

use ax_format::{Block, Entry, Record, octets_of};
use ax_uap::UapItems;

/// The octets of the least presence field whose last marked slot has that number.
fn presence_octets_of(last: u32) -> u64
    ensures { result ≡ presence_octets last }
{
    (u64::from(last) + 6) / 7
}

#[tactic(auto, using(ax_format::proofs::Counting::item_kinds))]
fn octets_of_item(items: &UapItems<'_>, entry: &Entry) -> u64
    ensures { result ≡ capped (octets_where (item_kind items.now.spec.now entry.now.slot) (octets (value_tree entry.now.value))) }
{
    match items.item(entry.slot) {
        Some(item) => octets_of(&entry.value, &item.kind),
        None => 0,
    }
}

/// The octets of a record: of its FSPEC, then of its items.
fn octets_of_record(items: &UapItems<'_>, one: &Record) -> u64
    ensures { result ≡ capped (record_octets items.now.spec.now one.now) }
{
    let mut last: u32 = 1;
    let mut total: u64 = 0;
    for entry in one.entries.as_slice() {
        last = entry.slot;
        total = total.saturating_add(octets_of_item(items, entry));
    }
    total.saturating_add(presence_octets_of(last))
}

#[tactic(auto, using(ax_format::proofs::Counting::records))]
fn octets_of_records(items: &UapItems<'_>, records: &[Record]) -> u64
    ensures { result ≡ capped (records_octets items.now.spec.now records.now) }
{
    let mut total: u64 = 0;
    for one in records {
        total = total.saturating_add(octets_of_record(items, one));
    }
    total
}

/// The octets of the block's canonical form, CAT and LEN included, capped at 2^64 - 1 where there are more, as `canon_length`
/// of the specification gives them. The specification has no flaw, and the block fits it.
#[tactic(auto, using(ax_format::proofs::BlockLengths::blocks))]
pub fn length_over(items: &UapItems<'_>, block: &Block) -> u64
    requires no_flaw { HasNoFlaw items.now.spec.now }
    requires block_fits { BlockFits items.now.spec.now block.now }
    ensures { result ≡ capped (block_length items.now.spec.now block.now) }
{
    match block {
        Block::Read { records, .. } => {
            let body = octets_of_records(items, records.as_slice());
            body.saturating_add(3)
        }
        Block::Opaque { octets, .. } => u64::from(octets.count()) + 3,
    }
}
