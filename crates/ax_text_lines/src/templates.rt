//! Templates of runs of bits: the octets that are known of the kind, and the widths of the numbers between them, put together
//! once.
ghost use Rattle.std.specs.Prelude.{◌≡◌, ◌+◌, ◌<◌, ◌≤◌, [], ◌∷◌, Some, None, length, IfOk, OnOk};
ghost use Rattle.ax_text_lines.specs.Drafts.{Adds, drafted, MakesStep};
ghost use Rattle.ax_text_lines.specs.Templates as Templates;
ghost use Rattle.ax_text_lines.specs.Templates.{before, number_then, text_then, whole_template};

use crate::literal::{LITERAL_ROOM, TemplateLiteral};
use crate::room::put_octet;
use ax_lists::Sequence;
use std::alloc::{AllocError, Global};

/// Octets that are printed as they are, and a number that is printed after them.
#[derive(Clone, Copy)]
pub struct TemplateStep {
    /// The octets.
    pub literal: TemplateLiteral,
    /// The bits of the number. None where the octets are more than one literal has room for.
    pub number: Option<u32>,
}

/// A template: its steps, in order, and the octets after them.
pub struct TemplateSteps {
    /// The steps, in order.
    pub steps: Sequence<TemplateStep>,
    /// The octets after them.
    pub tail: TemplateLiteral,
}

impl Drop for TemplateSteps {
    fn drop(self) {
        let TemplateSteps {
            steps: _steps,
            tail: _tail,
        } = self;
    }
}

/// A template as it is put together: its steps so far, and the octets after them.
pub(crate) struct Draft {
    steps: Sequence<TemplateStep>,
    literal: TemplateLiteral,
    /// How many steps it may have.
    most: u32,
}

impl Drop for Draft {
    fn drop(self) {
        let Draft {
            steps: _steps,
            literal: _literal,
            most: _most,
        } = self;
    }
}

impl Draft {
    /// One with nothing in it, which may have so many steps.
    #[tactic(auto, using(crate::proofs::DraftPieces::begun))]
    pub(crate) fn new(alloc: Global, most: u32) -> Draft
        ensures { (r : Templates.Template) → drafted result r ≡ r }
    {
        Draft {
            steps: Sequence::new(alloc),
            literal: TemplateLiteral {
                octets: [0; 32],
                count: 0,
            },
            most,
        }
    }

    /// Makes a step of the octets after the steps, with a number after them or with none. Err is want of memory, or a step more
    /// than it may have.
    fn push_step(&mut self, number: Option<u32>) -> Result<(), AllocError>
        ensures step { OnOk result (MakesStep number self.old self.new) }
        ensures count { OnOk result (self.new.literal.count ≡ 0) }
    {
        if self.steps.count() >= self.most {
            return Err(AllocError);
        }
        let step = TemplateStep {
            literal: self.literal,
            number,
        };
        self.steps.push(step)?;
        self.literal.count = 0;
        Ok(())
    }

    /// Sees to room for an octet.
    #[tactic(auto, using(crate::proofs::DraftPieces::same))]
    fn make_room(&mut self) -> Result<(), AllocError>
        ensures same { OnOk result (Adds (λ r. r) self.old self.new) }
        ensures room { OnOk result (self.new.literal.count < 32) }
    {
        if self.literal.count < LITERAL_ROOM {
            return Ok(());
        }
        self.push_step(None)?;
        Ok(())
    }

    #[tactic(auto, using(crate::proofs::DraftPieces::octets))]
    fn octet(&mut self, octet: u8) -> Result<(), AllocError>
        ensures { OnOk result (Adds (before (octet ∷ [])) self.old self.new) }
    {
        self.make_room()?;
        let octets: &mut [u8] = &mut self.literal.octets;
        put_octet(octets, self.literal.count, octet);
        self.literal.count += 1;
        Ok(())
    }

    /// Appends a text after a space.
    #[tactic(auto, using(crate::proofs::DraftPieces::texts))]
    pub(crate) fn text(&mut self, text: &[u8]) -> Result<(), AllocError>
        ensures { OnOk result (Adds (text_then text.now) self.old self.new) }
    {
        self.octet(b' ')?;
        for octet in text {
            self.octet(*octet)?;
        }
        Ok(())
    }

    /// Appends a number of so many bits after a space.
    #[tactic(auto, using(crate::proofs::DraftPieces::numbers))]
    pub(crate) fn number(&mut self, width: u32) -> Result<(), AllocError>
        ensures { OnOk result (Adds (number_then width) self.old self.new) }
    {
        self.octet(b' ')?;
        self.push_step(Some(width))?;
        Ok(())
    }

    /// The steps, with no room for others, and the octets after them.
    #[tactic(auto, using(crate::proofs::DraftPieces::tails))]
    pub(crate) fn steps(self, alloc: Global) -> Result<TemplateSteps, AllocError>
        ensures { IfOk result (λ steps. whole_template steps ≡ drafted self (Templates.ends [])) }
    {
        let steps = self.steps.copy(alloc)?;
        Ok(TemplateSteps {
            steps,
            tail: self.literal,
        })
    }
}
