//! Records over a specification, read and printed.
ghost use Rattle.std.specs.Prelude.{◌≡◌, ◌≤◌, length, IfOk, IfErr};
ghost use Rattle.ax_format.specs.Flaws.{NoFlaw};
ghost use Rattle.ax_format.specs.Plain.{spec_tree};
ghost use Rattle.ax_format.specs.Sizes.{longest_body};
ghost use Rattle.ax_format.specs.Specification.{record_kind};
ghost use Rattle.ax_fspec.specs.Reading.{IsMaskOf, record_slot_list, kind_read};
ghost use Rattle.ax_text_lines.specs.Prints.{IsRecordPrinted};
ghost use Rattle.ax_values.specs.SlotReading.{HasFailed};

use crate::items::TextItems;
use crate::kinds::print_marked;
use crate::line::TokenLine;
use ax_fspec::{Presence, SlotMask, read_presence};
use ax_values::DecodeError;

/// Prints the record that begins at octet `at` of the body, by what is held of the items and the mask of the UAP. Ok is the
/// octet after it.
#[tactic(auto, using(ax_values::proofs::Continuing::errors, ax_values::proofs::Marking::fields))]
pub(crate) fn print_record(
    line: &mut TokenLine,
    items: &TextItems<'_>,
    mask: &SlotMask,
    body: &[u8],
    at: u32,
) -> Result<u32, DecodeError>
    requires spec { NoFlaw (spec_tree items.now) }
    requires mask { IsMaskOf (record_slot_list (spec_tree items.now)) mask.now }
    requires body { length body.now ≤ longest_body }
    requires at { at ≤ length body.now }
    ensures ok { IfOk result (λ end. IsRecordPrinted (spec_tree items.now) body.now at end line.old.octets line.new.octets) }
    ensures err { IfErr result (λ e. HasFailed (kind_read (record_kind (spec_tree items.now)) body.now at) at e) }
{
    let mut marked = Presence::empty();
    let here = read_presence(mask, body, at, &mut marked)?;
    line.text(b"record")?;
    line.open()?;
    let end = print_marked(line, items.slots(), &marked, body, here)?;
    line.close()?;
    Ok(end)
}
