//! Bodies, shown while they are read.
ghost use Rattle.std.specs.Prelude.{◌≡◌, ◌≤◌, length, IfErr, OnOk};
ghost use Rattle.ax_format.specs.Flaws.{NoFlaw};
ghost use Rattle.ax_format.specs.Plain.{spec_tree};
ghost use Rattle.ax_format.specs.Sizes.{longest_body};
ghost use Rattle.ax_format.specs.Specification.{record_slots};
ghost use Rattle.ax_fspec.specs.Reading.{IsMaskOf, record_slot_list};
ghost use Rattle.ax_text_form.specs.Listable.{SlotsListable};
ghost use Rattle.ax_values.specs.Decoding.{IsBodyFault, IsFaultOf};
ghost use Rattle.ax_listing.specs.Shown.{ShowsRecords};

use crate::masked_items::MaskedItems;
use crate::position::OctetPosition;
use crate::records::show_record;
use ax_format::category_digits;
use ax_fspec::SlotMask;
use ax_held_kinds::HeldItems;
use ax_text_form::Lister;
use ax_values::DecodeError;

/// Puts the lines of the records of a body on a listing, over the items of a specification without flaw and the mask of
/// its UAP. Fault is the first fault of the body, by its bits; what was put on the listing before is then of no use.
pub fn show_records(
    lister: &mut Lister,
    items: &HeldItems<'_>,
    mask: &SlotMask,
    body: &[u8],
) -> Result<(), DecodeError>
    requires spec { NoFlaw (spec_tree items.now) }
    requires listable { SlotsListable (record_slots (spec_tree items.now)) }
    requires mask { IsMaskOf (record_slot_list (spec_tree items.now)) mask.now }
    requires body { length body.now ≤ longest_body }
    requires some { 1 ≤ length body.now }
    ensures ok { OnOk result (ShowsRecords (spec_tree items.now) body.now lister.old.out.octets lister.new.out.octets) }
    ensures err { IfErr result (IsFaultOf (IsBodyFault (spec_tree items.now) body.now)) }
{
    let masked = MaskedItems { items, mask };
    let mut path = lister.blank_path();
    path.set(&category_digits(items.spec().category));
    let mut at = 0;
    let mut number = 0;
    while (at as usize) < body.len() {
        let next = OctetPosition { body, at };
        at = show_record(lister, masked, number, next, &path)?;
        number += 1;
    }
    Ok(())
}
