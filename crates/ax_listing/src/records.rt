//! Records, shown while they are read.
ghost use Rattle.std.specs.Prelude.{◌≡◌, IfOk, IfErr};
ghost use Rattle.ax_format.specs.Flaws.{NoFlaw};
ghost use Rattle.ax_format.specs.Paths.{three_digits};
ghost use Rattle.ax_format.specs.Plain.{spec_tree};
ghost use Rattle.ax_format.specs.Specification.{record_kind, record_slots};
ghost use Rattle.ax_fspec.specs.Reading.{IsMaskOf, record_slot_list};
ghost use Rattle.ax_text_form.specs.Listable.{SlotsListable};
ghost use Rattle.ax_listing.specs.Shown.{FailsFrom, ShowsRecord, ShowsItems};

use crate::kinds::show_slot;
use crate::masked_items::MaskedItems;
use crate::position::OctetPosition;
use ax_fspec::{Presence, read_presence};
use ax_octets::LinePath;
use ax_text_form::Lister;
use ax_values::DecodeError;

/// The lines of the record of that number that begins at a position, under the path of its category. Ok is
/// the octet after it.
#[tactic(auto, using(ax_values::proofs::Continuing::errors, crate::proofs::RecordLines::record_ways))]
pub(crate) fn show_record(
    lister: &mut Lister,
    items: MaskedItems<'_, '_>,
    number: u32,
    from: OctetPosition<'_>,
    path: &LinePath,
) -> Result<u32, DecodeError>
    requires spec { NoFlaw (spec_tree items.items.now) }
    requires listable { SlotsListable (record_slots (spec_tree items.items.now)) }
    requires mask { IsMaskOf (record_slot_list (spec_tree items.items.now)) items.mask.now }
    requires path { path.now ≡ three_digits items.items.now.category }
    ensures ok { IfOk result (λ end. ShowsRecord (spec_tree items.entry.items.now) number from.entry end lister.old.out.octets lister.new.out.octets) }
    ensures err { IfErr result (FailsFrom (record_kind (spec_tree items.entry.items.now)) from.entry) }
{
    lister.record_front(number)?;
    let end = show_items(lister, items, from, path)?;
    Ok(end)
}

/// The lines of the items of a record that begins at a position, under a path. Ok is the octet after them.
#[tactic(auto, using(ax_values::proofs::Continuing::errors))]
fn show_items(
    lister: &mut Lister,
    items: MaskedItems<'_, '_>,
    from: OctetPosition<'_>,
    path: &LinePath,
) -> Result<u32, DecodeError>
    requires spec { NoFlaw (spec_tree items.items.now) }
    requires listable { SlotsListable (record_slots (spec_tree items.items.now)) }
    requires mask { IsMaskOf (record_slot_list (spec_tree items.items.now)) items.mask.now }
    ensures ok { IfOk result (λ end. ShowsItems (spec_tree items.entry.items.now) path.now from.entry end lister.old.out.octets lister.new.out.octets) }
    ensures err { IfErr result (FailsFrom (record_kind (spec_tree items.entry.items.now)) from.entry) }
{
    let slots = items.items.slots();
    let mut left = Presence::empty();
    let mut here = read_presence(items.mask, from.body, from.at, &mut left)?;
    while let Some(frn) = left.take_first() {
        let next = OctetPosition {
            body: from.body,
            at: here,
        };
        here = show_slot(lister, &slots[frn as usize - 1], next, path)?;
    }
    Ok(here)
}
