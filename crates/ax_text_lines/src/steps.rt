//! Fixed kinds and parts, printed by their templates.
ghost use Rattle.std.specs.Prelude.{◌+◌, ◌*◌, ◌≤◌, length, OnOk};
ghost use Rattle.ax_format.specs.InBounds.{FixedInBounds, MembersInBounds};
ghost use Rattle.ax_format.specs.Plain.{fixed_tree, part_tree};
ghost use Rattle.ax_format.specs.Sizes.{longest_body};
ghost use Rattle.ax_format.specs.Widths.{width, members_width};
ghost use Rattle.ax_text_lines.specs.Prints.{PrintsFixed, PrintsPart};

use crate::drafting::{TextFixed, TextPart};
use crate::fixed::{print_fixed, print_part};
use crate::line::TokenLine;
use std::alloc::AllocError;

/// Prints the value of a fixed kind in the bits from bit `at` of the body on.
#[inline(always)]
#[tactic(auto, using(crate::proofs::StepsPrinted::held))]
pub(crate) fn print_held(
    line: &mut TokenLine,
    held: &TextFixed<'_>,
    body: &[u8],
    at: u32,
) -> Result<(), AllocError>
    requires bounds { FixedInBounds (fixed_tree held.now.fixed.now) }
    requires within { at + width (fixed_tree held.now.fixed.now) ≤ 8 * length body.now }
    requires body { length body.now ≤ longest_body }
    ensures { OnOk result (PrintsFixed (fixed_tree held.now.fixed.now) body.now at line.old.octets line.new.octets) }
{
    if let Some(steps) = &held.steps {
        line.steps(steps, body, at, held.width as u32)?;
        return Ok(());
    }
    let mut bit = at;
    print_fixed(line, held.fixed, body, &mut bit)?;
    Ok(())
}

/// Prints a part with its values in the bits from bit `at` of the body on.
#[tactic(auto, using(crate::proofs::StepsPrinted::held_part))]
pub(crate) fn print_held_part(
    line: &mut TokenLine,
    held: &TextPart<'_>,
    body: &[u8],
    at: u32,
) -> Result<(), AllocError>
    requires bounds { MembersInBounds (part_tree held.now.part.now) }
    requires within { at + members_width (part_tree held.now.part.now) ≤ 8 * length body.now }
    requires body { length body.now ≤ longest_body }
    ensures { OnOk result (PrintsPart (part_tree held.now.part.now) body.now at line.old.octets line.new.octets) }
{
    if let Some(steps) = &held.steps {
        line.steps(steps, body, at, held.width as u32)?;
        return Ok(());
    }
    let mut bit = at;
    print_part(line, held.part, body, &mut bit)?;
    Ok(())
}
