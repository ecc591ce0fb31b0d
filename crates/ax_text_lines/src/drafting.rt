//! Templates made of kinds.
ghost use Rattle.std.specs.Prelude.{◌≡◌, [], IfOk, IfSome, IsTrue, OnOk};
ghost use Rattle.std.proofs.Props.{props};
ghost use Rattle.ax_format.specs.Lengths.{capped};
ghost use Rattle.ax_format.specs.Plain.{fixed_tree, member_tree, members_tree, part_tree};
ghost use Rattle.ax_format.specs.Widths as Widths;
ghost use Rattle.ax_text_lines.specs.Drafts.{Adds};
ghost use Rattle.ax_text_lines.specs.Nesting.{FixedWithin, FixedShallow-prop, MembersWithin, MembersShallow-prop};
ghost use Rattle.ax_text_lines.specs.Templates.{AreSteps, ends, fixed_template, member_template, members_template, part_template, whole_template};

use crate::nesting::{SHALLOW, fixed_nests, members_nest};
use crate::templates::{Draft, TemplateSteps};
use ax_format::{Fixed, Member, Members, Part};
use std::alloc::{AllocError, Global};

/// Appends what is printed of a fixed kind.
#[cycle(add_fixed)]
#[tactic(auto, using(crate::proofs::DraftPieces::groups))]
pub(crate) fn add_fixed(draft: &mut Draft, fixed: &Fixed) -> Result<(), AllocError>
    ensures { OnOk result (Adds (fixed_template (fixed_tree fixed.now)) draft.old draft.new) }
{
    match fixed {
        Fixed::Element { width, .. } => draft.number(*width),
        Fixed::Group(members) => {
            draft.text(b"{")?;
            add_members(draft, members)?;
            draft.text(b"}")?;
            Ok(())
        }
    }
}

#[cycle(add_fixed)]
#[tactic(auto, using(crate::proofs::DraftPieces::members))]
fn add_members(draft: &mut Draft, members: &Members) -> Result<(), AllocError>
    ensures { OnOk result (Adds (members_template (members_tree members.now)) draft.old draft.new) }
{
    for member in members.as_slice() {
        add_member(draft, member)?;
    }
    Ok(())
}

#[cycle(add_fixed)]
#[tactic(auto, using(crate::proofs::DraftPieces::of_member))]
fn add_member(draft: &mut Draft, member: &Member) -> Result<(), AllocError>
    ensures { OnOk result (Adds (member_template (member_tree member.now)) draft.old draft.new) }
{
    match member {
        Member::Named { name, fixed } => {
            draft.text(name.octets())?;
            add_fixed(draft, fixed)?;
            Ok(())
        }
        Member::Spare { width } => {
            draft.text(b"spare")?;
            draft.number(*width)?;
            Ok(())
        }
    }
}

#[tactic(auto, using(crate::proofs::DraftPieces::of_part))]
fn add_part(draft: &mut Draft, part: &Part) -> Result<(), AllocError>
    ensures { OnOk result (Adds (part_template (part_tree part.now)) draft.old draft.new) }
{
    draft.text(b"part")?;
    draft.text(b"{")?;
    add_members(draft, &part.members)?;
    draft.text(b"}")?;
    Ok(())
}

/// The steps of a fixed kind, at most so many. Err is want of memory, or more steps.
#[tactic(auto, using(crate::proofs::DraftPieces::whole))]
fn steps_of_fixed(alloc: Global, fixed: &Fixed, most: u32) -> Result<TemplateSteps, AllocError>
    ensures { IfOk result (λ steps. whole_template steps ≡ fixed_template (fixed_tree fixed.now) (ends [])) }
{
    let mut draft = Draft::new(alloc, most);
    add_fixed(&mut draft, fixed)?;
    let steps = draft.steps(alloc)?;
    Ok(steps)
}

/// The same, or none.
#[tactic(auto, using(crate::proofs::TemplateTexts::found))]
fn some_steps_of_fixed(alloc: Global, fixed: &Fixed, most: u32) -> Option<TemplateSteps>
    ensures { IfSome result (λ steps. AreSteps (fixed_template (fixed_tree fixed.now) (ends [])) steps) }
{
    match steps_of_fixed(alloc, fixed, most) {
        Ok(steps) => Some(steps),
        Err(_) => None,
    }
}

/// The steps of a part, at most so many. Err is want of memory, or more steps.
#[tactic(auto, using(crate::proofs::DraftPieces::whole))]
fn steps_of_part(alloc: Global, part: &Part, most: u32) -> Result<TemplateSteps, AllocError>
    ensures { IfOk result (λ steps. whole_template steps ≡ part_template (part_tree part.now) (ends [])) }
{
    let mut draft = Draft::new(alloc, most);
    add_part(&mut draft, part)?;
    let steps = draft.steps(alloc)?;
    Ok(steps)
}

/// The same, or none.
#[tactic(auto, using(crate::proofs::TemplateTexts::found))]
fn some_steps_of_part(alloc: Global, part: &Part, most: u32) -> Option<TemplateSteps>
    ensures { IfSome result (λ steps. AreSteps (part_template (part_tree part.now) (ends [])) steps) }
{
    match steps_of_part(alloc, part, most) {
        Ok(steps) => Some(steps),
        Err(_) => None,
    }
}

/// How many steps of templates may still be made.
#[derive(Drop)]
pub struct StepsLeft {
    steps: u32,
}

impl StepsLeft {
    /// All of them: some 4 MB.
    pub fn all() -> StepsLeft {
        StepsLeft { steps: 80_000 }
    }

    /// How many.
    pub(crate) fn most(&self) -> u32 {
        self.steps
    }

    /// Takes those off that were made.
    pub(crate) fn take(&mut self, made: &Option<TemplateSteps>) {
        if let Some(made) = made {
            self.steps = self.steps.saturating_sub(made.steps.count());
        }
    }
}

/// A fixed kind, with its width, and its template where that was made.
pub struct TextFixed<'s> {
    /// The kind.
    pub fixed: &'s Fixed,
    /// Its bits, or 2^64 - 1 where they are more.
    pub width: u64,
    /// Its template, where that was made.
    pub steps: Option<TemplateSteps>,
    /// Whether the braces of its text are known to nest at most 8 deep.
    pub shallow: bool,
    ghost wide: { width ≡ capped (Widths.width (fixed_tree fixed.now)) },
    ghost made: { IfSome steps (λ steps. AreSteps (fixed_template (fixed_tree fixed.now) (ends [])) steps) } by { Prim.hlevel props },
    ghost nests: { IsTrue shallow → FixedWithin 8 (fixed_tree fixed.now) } by { FixedShallow-prop shallow (fixed_tree fixed.now) },
}

impl Drop for TextFixed<'_> {
    fn drop(self) {
        let TextFixed {
            fixed: _fixed,
            width: _width,
            steps: _steps,
            shallow: _shallow,
        } = self;
    }
}

impl<'s> TextFixed<'s> {
    pub(crate) fn of(alloc: Global, left: &mut StepsLeft, fixed: &'s Fixed) -> TextFixed<'s>
        ensures { result.fixed.now ≡ fixed.now }
    {
        let steps = some_steps_of_fixed(alloc, fixed, left.steps);
        left.take(&steps);
        TextFixed {
            fixed,
            width: fixed.width(),
            steps,
            shallow: fixed_nests(fixed, SHALLOW),
        }
    }
}

/// A part of an extended item, with its width without the FX bit, and its template where that was made.
pub struct TextPart<'s> {
    /// The part.
    pub part: &'s Part,
    /// The bits of its members, without the FX bit, or 2^64 - 1 where they are more.
    pub width: u64,
    /// Its template, where that was made.
    pub steps: Option<TemplateSteps>,
    /// Whether the braces of its members' texts are known to nest at most 8 deep.
    pub shallow: bool,
    ghost wide: { width ≡ capped (Widths.members_width (part_tree part.now)) },
    ghost made: { IfSome steps (λ steps. AreSteps (part_template (part_tree part.now) (ends [])) steps) } by { Prim.hlevel props },
    ghost nests: { IsTrue shallow → MembersWithin 8 (part_tree part.now) } by { MembersShallow-prop shallow (part_tree part.now) },
}

impl Drop for TextPart<'_> {
    fn drop(self) {
        let TextPart {
            part: _part,
            width: _width,
            steps: _steps,
            shallow: _shallow,
        } = self;
    }
}

impl<'s> TextPart<'s> {
    pub(crate) fn of(alloc: Global, left: &mut StepsLeft, part: &'s Part) -> TextPart<'s>
        ensures { result.part.now ≡ part.now }
    {
        let steps = some_steps_of_part(alloc, part, left.steps);
        left.take(&steps);
        TextPart {
            part,
            width: part.width(),
            steps,
            shallow: members_nest(&part.members, SHALLOW),
        }
    }
}
