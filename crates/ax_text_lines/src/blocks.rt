//! The lines of data blocks.
ghost use Rattle.std.specs.Prelude.{◌≡◌, ◌≤◌, length, IfErr, OnOk};
ghost use Rattle.ax_format.specs.Flaws.{NoFlaw};
ghost use Rattle.ax_format.specs.Plain.{spec_tree};
ghost use Rattle.ax_format.specs.Sizes.{longest_body};
ghost use Rattle.ax_fspec.specs.Reading.{IsMaskOf, record_slot_list};
ghost use Rattle.ax_text_form.specs.BlockText.{OpaqueLine};
ghost use Rattle.ax_text_lines.specs.Prints.{IsBlockPrinted, PrintsBody};
ghost use Rattle.ax_values.specs.Decoding.{IsBodyFault, IsFaultOf};

use crate::items::TextItems;
use crate::line::TokenLine;
use crate::records::print_record;
use ax_format::RawBlock;
use ax_fspec::SlotMask;
use ax_values::DecodeError;
use std::alloc::AllocError;

/// Prints the line of a block of the specification's category in place of what the line held, by the items and the mask of
/// the UAP: the tokens of the records that its body spells, with one space between, and a line feed. Fault is the first fault
/// of the body, with its bit in the body; what the line then holds isn't said.
pub fn print_block(
    line: &mut TokenLine,
    items: &TextItems<'_>,
    mask: &SlotMask,
    raw: &RawBlock<'_>,
) -> Result<(), DecodeError>
    requires spec { NoFlaw (spec_tree items.now) }
    requires mask { IsMaskOf (record_slot_list (spec_tree items.now)) mask.now }
    ensures printed { OnOk result (IsBlockPrinted (spec_tree items.now) raw.now.category raw.now.body.now line.new.octets) }
    ensures fault { IfErr result (IsFaultOf (IsBodyFault (spec_tree items.now) raw.now.body.now)) }
{
    line.begin(b"block")?;
    line.category(raw.category)?;
    line.open()?;
    print_body(line, items, mask, raw.body)?;
    line.close()?;
    line.end()?;
    Ok(())
}

/// Prints the records of a body.
fn print_body(
    line: &mut TokenLine,
    items: &TextItems<'_>,
    mask: &SlotMask,
    body: &[u8],
) -> Result<(), DecodeError>
    requires spec { NoFlaw (spec_tree items.now) }
    requires mask { IsMaskOf (record_slot_list (spec_tree items.now)) mask.now }
    requires body { length body.now ≤ longest_body }
    requires some { 1 ≤ length body.now }
    ensures records { OnOk result (PrintsBody (spec_tree items.now) body.now line.old.octets line.new.octets) }
    ensures fault { IfErr result (IsFaultOf (IsBodyFault (spec_tree items.now) body.now)) }
{
    let mut at = 0;
    while (at as usize) < body.len() {
        at = print_record(line, items, mask, body, at)?;
    }
    Ok(())
}

/// Prints the line of a block whose category has no specification in place of what the line held: its category and its
/// octets after LEN.
pub fn print_opaque(line: &mut TokenLine, raw: &RawBlock<'_>) -> Result<(), AllocError>
    ensures { OnOk result (line.new.octets ≡ OpaqueLine raw.now.category raw.now.body.now) }
{
    line.begin(b"opaque")?;
    line.category(raw.category)?;
    line.hex(raw.body)?;
    line.end()?;
    Ok(())
}
