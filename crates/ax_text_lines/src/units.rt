//! Kinds whose units are runs of a known length, printed: fixed kinds, the parts of extended and closed items,
//! occurrences by FX.
ghost use Rattle.std.specs.Prelude.{◌≡◌, ◌+◌, ◌*◌, ◌≤◌, length, map, IfOk, IfErr};
ghost use Rattle.ax_format.specs.InBounds.{InBounds};
ghost use Rattle.ax_format.specs.Plain.{fixed_tree};
ghost use Rattle.ax_format.specs.Sizes.{longest_body};
ghost use Rattle.ax_format.specs.Tree as Tree;
ghost use Rattle.ax_fspec.specs.Reading.{kind_read};
ghost use Rattle.ax_text_lines.specs.HeldText.{text_part};
ghost use Rattle.ax_text_lines.specs.Prints.{PrintsValue};
ghost use Rattle.ax_values.specs.SlotReading.{HasFailed};

use crate::drafting::TextFixed;
use crate::held::TextParts;
use crate::line::TokenLine;
use crate::steps::{print_held, print_held_part};
use ax_format::LastPart;
use ax_values::{DecodeError, PartsLeft, has_fx, unit_end};

/// Prints the value of a fixed kind that stands by itself. Ok is the octet after it.
#[inline(always)]
#[tactic(auto, using(ax_values::proofs::Continuing::errors, ax_fspec::proofs::AtOctets::fixed_fails))]
pub(crate) fn print_single(
    line: &mut TokenLine,
    fixed: &TextFixed<'_>,
    body: &[u8],
    at: u32,
) -> Result<u32, DecodeError>
    requires bounds { InBounds (Tree.fixed (fixed_tree fixed.now.fixed.now)) }
    requires body { length body.now ≤ longest_body }
    requires at { at ≤ length body.now }
    ensures ok { IfOk result (λ end. PrintsValue (Tree.fixed (fixed_tree fixed.now.fixed.now)) body.now at end line.old.octets line.new.octets) }
    ensures err { IfErr result (λ e. HasFailed (kind_read (Tree.fixed (fixed_tree fixed.now.fixed.now)) body.now at) at e) }
{
    let end = unit_end(body, at, fixed.width as u32)?;
    print_held(line, fixed, body, 8 * at)?;
    Ok(end)
}

/// Prints the parts that are present, in braces. Ok is the octet after them.
#[tactic(auto, using(ax_values::proofs::Continuing::errors))]
pub(crate) fn print_parts(
    line: &mut TokenLine,
    last: LastPart,
    parts: &TextParts<'_>,
    body: &[u8],
    at: u32,
) -> Result<u32, DecodeError>
    requires bounds { InBounds (Tree.extended last (map text_part parts.now)) }
    requires body { length body.now ≤ longest_body }
    requires at { at ≤ length body.now }
    ensures ok { IfOk result (λ end. PrintsValue (Tree.extended last (map text_part parts.now)) body.now at end line.old.octets line.new.octets) }
    ensures err { IfErr result (λ e. HasFailed (kind_read (Tree.extended last (map text_part parts.now)) body.now at) at e) }
{
    line.open()?;
    let mut left = PartsLeft::of(last, parts.as_slice(), body, at);
    while let Some((part, first)) = left.next()? {
        print_held_part(line, part, body, first)?;
    }
    line.close()?;
    Ok(left.at)
}

/// Prints the occurrences by FX, in braces. Ok is the octet after them.
#[tactic(auto, using(ax_values::proofs::Continuing::errors, crate::proofs::Repeated::run_begins))]
pub(crate) fn print_run(
    line: &mut TokenLine,
    fixed: &TextFixed<'_>,
    body: &[u8],
    at: u32,
) -> Result<u32, DecodeError>
    requires bounds { InBounds (Tree.by_fx (fixed_tree fixed.now.fixed.now)) }
    requires body { length body.now ≤ longest_body }
    requires at { at ≤ length body.now }
    ensures ok { IfOk result (λ end. PrintsValue (Tree.by_fx (fixed_tree fixed.now.fixed.now)) body.now at end line.old.octets line.new.octets) }
    ensures err { IfErr result (λ e. HasFailed (kind_read (Tree.by_fx (fixed_tree fixed.now.fixed.now)) body.now at) at e) }
{
    line.open()?;
    let width = fixed.width as u32;
    let mut here = at;
    loop {
        let end = unit_end(body, here, width + 1)?;
        print_held(line, fixed, body, 8 * here)?;
        if !has_fx(body, 8 * here + width) {
            line.close()?;
            return Ok(end);
        }
        here = end;
    }
}
