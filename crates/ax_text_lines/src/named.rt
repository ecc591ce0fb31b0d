//! Items and subitems of a fixed kind, printed by a template that begins with their name.
ghost use Rattle.std.specs.Prelude.{◌≡◌, ◌+◌, ◌*◌, ◌≤◌, [], length, IfOk, IfErr, IfSome, OnOk, IsTrue};
ghost use Rattle.std.proofs.Props.{props};
ghost use Rattle.ax_bits.specs.Bits.{bits};
ghost use Rattle.ax_format.specs.Characters.{IsName};
ghost use Rattle.ax_format.specs.InBounds.{FixedInBounds, InBounds};
ghost use Rattle.ax_format.specs.Lengths.{capped};
ghost use Rattle.ax_format.specs.Plain.{fixed_tree};
ghost use Rattle.ax_format.specs.Sizes.{longest_body};
ghost use Rattle.ax_format.specs.Tree as Tree;
ghost use Rattle.ax_format.specs.Tree.{named};
ghost use Rattle.ax_format.specs.Widths as Widths;
ghost use Rattle.ax_fspec.specs.Reading.{kind_read};
ghost use Rattle.ax_text_lines.specs.Prints.{fixed_slot, PrintsNamed, SlotPrints, Prints};
ghost use Rattle.ax_text_lines.specs.Nesting.{FixedWithin, NamedShallow-prop};
ghost use Rattle.ax_text_lines.specs.Templates.{AreSteps, ends, member_template, whole_template};
ghost use Rattle.ax_values.specs.SlotReading.{HasFailed};

use crate::drafting::{StepsLeft, add_fixed};
use crate::fixed::print_fixed;
use crate::line::TokenLine;
use crate::nesting::{SHALLOW, fixed_nests};
use crate::templates::{Draft, TemplateSteps};
use ax_format::{Fixed, Name};
use ax_values::{DecodeError, unit_end};
use std::alloc::{AllocError, Global};

/// The steps of a name and of a value of a fixed kind after it, at most so many. Err is want of memory, or more steps.
#[tactic(auto, using(crate::proofs::DraftPieces::named_whole))]
fn steps_of_named(
    alloc: Global,
    name: &Name,
    fixed: &Fixed,
    most: u32,
) -> Result<TemplateSteps, AllocError>
    ensures { IfOk result (λ steps. whole_template steps ≡ member_template (named name.now (fixed_tree fixed.now)) (ends [])) }
{
    let mut draft = Draft::new(alloc, most);
    draft.text(name.octets())?;
    add_fixed(&mut draft, fixed)?;
    let steps = draft.steps(alloc)?;
    Ok(steps)
}

/// The same, or none.
#[tactic(auto, using(crate::proofs::TemplateTexts::found))]
fn some_steps_of_named(
    alloc: Global,
    name: &Name,
    fixed: &Fixed,
    most: u32,
) -> Option<TemplateSteps>
    ensures { IfSome result (λ steps. AreSteps (member_template (named name.now (fixed_tree fixed.now)) (ends [])) steps) }
{
    match steps_of_named(alloc, name, fixed, most) {
        Ok(steps) => Some(steps),
        Err(_) => None,
    }
}

/// An item or a subitem of a fixed kind, with its width, and the template of its name and its value where that was made.
pub struct TextNamed<'s> {
    /// The item's or the subitem's name.
    pub name: Name,
    /// Its kind.
    pub fixed: &'s Fixed,
    /// The bits of its value, or 2^64 - 1 where they are more.
    pub width: u64,
    /// The template of its name and its value, where that was made.
    pub steps: Option<TemplateSteps>,
    /// Whether the braces of its value's text are known to nest at most 8 deep.
    pub shallow: bool,
    ghost wide: { width ≡ capped (Widths.width (fixed_tree fixed.now)) },
    ghost made: { IfSome steps (λ steps. AreSteps (member_template (named name (fixed_tree fixed.now)) (ends [])) steps) } by { Prim.hlevel props },
    ghost nests: { IsTrue shallow → IsName name × FixedWithin 8 (fixed_tree fixed.now) } by { NamedShallow-prop shallow name (fixed_tree fixed.now) },
}

impl Drop for TextNamed<'_> {
    fn drop(self) {
        let TextNamed {
            name: _name,
            fixed: _fixed,
            width: _width,
            steps: _steps,
            shallow: _shallow,
        } = self;
    }
}

impl<'s> TextNamed<'s> {
    pub(crate) fn of(
        alloc: Global,
        left: &mut StepsLeft,
        name: &Name,
        fixed: &'s Fixed,
    ) -> TextNamed<'s>
        ensures name { result.name ≡ name.now }
        ensures fixed { result.fixed.now ≡ fixed.now }
    {
        let steps = some_steps_of_named(alloc, name, fixed, left.most());
        left.take(&steps);
        TextNamed {
            name: *name,
            fixed,
            width: fixed.width(),
            steps,
            shallow: !name.octets().is_empty() && fixed_nests(fixed, SHALLOW),
        }
    }
}

/// Prints the name, and the value in the bits from bit `at` of the body on.
#[inline(always)]
#[tactic(auto, using(crate::proofs::StepsPrinted::held_named))]
fn print_named(
    line: &mut TokenLine,
    item: &TextNamed<'_>,
    body: &[u8],
    at: u32,
) -> Result<(), AllocError>
    requires bounds { FixedInBounds (fixed_tree item.now.fixed.now) }
    requires within { at + Widths.width (fixed_tree item.now.fixed.now) ≤ 8 * length body.now }
    requires body { length body.now ≤ longest_body }
    ensures { OnOk result (PrintsNamed item.now.name (fixed_tree item.now.fixed.now) body.now at line.old.octets line.new.octets) }
{
    if let Some(steps) = &item.steps {
        line.steps(steps, body, at, item.width as u32)?;
        return Ok(());
    }
    line.name(&item.name)?;
    let mut bit = at;
    print_fixed(line, item.fixed, body, &mut bit)?;
    Ok(())
}

/// Prints the name and the value, which begins at octet `at` of the body. Ok is the octet after it.
#[inline(always)]
#[tactic(auto, using(ax_values::proofs::Continuing::errors, ax_fspec::proofs::AtOctets::fixed_fails))]
pub(crate) fn print_item(
    line: &mut TokenLine,
    item: &TextNamed<'_>,
    body: &[u8],
    at: u32,
) -> Result<u32, DecodeError>
    requires bounds { InBounds (Tree.fixed (fixed_tree item.now.fixed.now)) }
    requires body { length body.now ≤ longest_body }
    requires at { at ≤ length body.now }
    ensures ok { IfOk result (λ end. SlotPrints (fixed_slot item.now.name (fixed_tree item.now.fixed.now)) body.now at end line.old.octets line.new.octets) }
    ensures err { IfErr result (λ e. HasFailed (kind_read (Tree.fixed (fixed_tree item.now.fixed.now)) body.now at) at e) }
{
    let end = unit_end(body, at, item.width as u32)?;
    print_named(line, item, body, 8 * at)?;
    Ok(end)
}
