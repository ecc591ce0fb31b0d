//! One block.
ghost use Rattle.std.specs.Prelude.{◌≡◌, ◌<◌, [], IfErr, OnOk};
ghost use Rattle.ax_blocks.specs.Reader.{raw_tree};
ghost use Rattle.ax_format.specs.Flaws.{NoFlaw};
ghost use Rattle.ax_format.specs.Plain.{spec_tree, catalogue_tree};
ghost use Rattle.ax_fspec.specs.Reading.{IsMaskOf, record_slot_list};
ghost use Rattle.ax_blocks.specs.Made.{NothingMade, NothingMadeRead, IsWithinBody};
ghost use Rattle.ax_codec.specs.Standing.{StandsFor, StandForEach};
ghost use Rattle.ax_values.specs.Decoding.{IsBodyFault, IsFaultOf};
ghost use Rattle.ax_listing.specs.Listing.{ListsBlock};
ghost use Rattle.ax_listing.specs.ShowCommand.{IsListed, IsReadListed};

use crate::body::show_records;
use crate::room::ListingRoom;
use crate::tables::{ListedUap, ListedUaps};
use ax_blocks::{BlockStop, NumberedBlock};
use ax_canon::lay_view;
use ax_check::Catalogue;
use ax_codec::Codec;
use ax_tables::Codecs;
use ax_text_form::Lister;
use ax_values::DecodeError;
use ax_walk::scan;

/// Lists the body of a block of the table's category on an empty listing, with so many octets in its canonical form and so many
/// records.
#[tactic(auto, using(crate::proofs::Blocks::bodies))]
fn list_body(
    lister: &mut Lister,
    table: &ListedUap<'_>,
    block: NumberedBlock<'_, '_>,
    octets: u32,
    count: u32,
) -> Result<(), DecodeError>
    requires no_flaw { NoFlaw (spec_tree table.now.items) }
    requires mask { IsMaskOf (record_slot_list (spec_tree table.now.items)) table.now.mask }
    requires empty { lister.old.out.octets ≡ [] }
    ensures ok { OnOk result (ListsBlock (spec_tree table.now.items) block.entry octets count lister.new.out.octets) }
    ensures err { IfErr result (IsFaultOf (IsBodyFault (spec_tree table.now.items) block.entry.raw.now.body.now)) }
    ensures small { octets < 4294967296 }
{
    let raw = block.raw;
    lister.block_line(block.number, raw.category, u64::from(octets), count)?;
    show_records(lister, &table.items, &table.mask, raw.body)?;
    Ok(())
}

/// Lists a block of the table's category, judged under its codec; or tells the first fault of its body. The canonical
/// form is laid, so that its octets are known.
#[tactic(auto, using(crate::proofs::Blocks::reads))]
fn list_read(
    room: &mut ListingRoom,
    codec: &Codec,
    table: &ListedUap<'_>,
    block: NumberedBlock<'_, '_>,
) -> Result<(), BlockStop>
    requires no_flaw { NoFlaw (spec_tree table.now.items) }
    requires mask { IsMaskOf (record_slot_list (spec_tree table.now.items)) table.now.mask }
    requires stands { StandsFor codec.now (spec_tree table.now.items) }
    requires category { block.raw.now.category ≡ table.now.items.category }
    ensures octets { OnOk result (IsReadListed (spec_tree table.now.items) block.entry room.new.lister.out.octets) }
    ensures stop { IfErr result (NothingMadeRead (spec_tree table.now.items) (raw_tree block.entry.raw.now)) }
{
    room.lister.clear();
    let view = match scan(codec, block.raw.body) {
        Ok(view) => view,
        Err(fault) => return Err(BlockStop::Fault(fault)),
    };
    let octets = lay_view(&view, &mut room.output);
    match list_body(&mut room.lister, table, block, octets, view.count()) {
        Ok(()) => Ok(()),
        Err(DecodeError::Fault(fault)) => Err(BlockStop::Fault(fault)),
        Err(DecodeError::OutOfMemory) => Err(BlockStop::OutOfMemory),
    }
}

/// Lists a block under the catalogue's specification of its category, by its codec and its table, or as an opaque one; or
/// tells the first fault of its body.
#[tactic(auto, using(crate::proofs::Blocks::blocks))]
pub(crate) fn list_block(
    room: &mut ListingRoom,
    codecs: &Codecs,
    tables: &ListedUaps<'_>,
    catalogue: &Catalogue,
    block: NumberedBlock<'_, '_>,
) -> Result<(), BlockStop>
    requires sound { StandForEach codecs.now.codecs (catalogue_tree catalogue.now) }
    requires tables { tables.now ≡ catalogue.now }
    ensures octets { OnOk result (IsListed (catalogue_tree catalogue.now) block.entry.number (raw_tree block.entry.raw.now) room.new.lister.out.octets) }
    ensures stop { IfErr result (NothingMade (catalogue_tree catalogue.now) (raw_tree block.entry.raw.now)) }
    ensures short { IfErr result IsWithinBody }
{
    let raw = block.raw;
    match codecs.get(raw.category) {
        Some(codec) => match tables.get(raw.category) {
            Some(table) => match list_read(room, codec, table, block) {
                Ok(()) => Ok(()),
                Err(stop) => Err(stop),
            },
            None => unreachable!(),
        },
        None => {
            room.lister.clear();
            match room
                .lister
                .opaque_line(block.number, raw.category, raw.body)
            {
                Ok(()) => Ok(()),
                Err(_) => Err(BlockStop::OutOfMemory),
            }
        }
    }
}
