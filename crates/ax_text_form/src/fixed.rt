//! Values of fixed kinds: elements, groups and their members.
ghost use Rattle.std.specs.Prelude.{◌≡◌, OnOk};
ghost use Rattle.ax_format.specs.Plain.{fixed_tree, member_tree, members_tree, value_tree, values_tree};
ghost use Rattle.ax_format.specs.Shape.{FixedShape, MembersShape};
ghost use Rattle.ax_text_form.specs.Printing.{PutsTexts};
ghost use Rattle.ax_text_form.specs.ValueText.{number_onto, fixed_onto, member_onto, members_onto};

use crate::printer::TreePrinter;
use ax_format::{Fixed, Member, Members, Value, Values};
use std::alloc::AllocError;

impl TreePrinter {
    /// The number of an element or a spare.
    fn bits(&mut self, value: &Value) -> Result<(), AllocError>
        ensures { OnOk result (PutsTexts (number_onto (value_tree value.now)) self.old self.new) }
    {
        match value {
            Value::Number(number) => self.number(*number),
            _ => Ok(()),
        }
    }

    #[cycle(print_fixed)]
    #[tactic(auto, using(crate::proofs::FixedWays::fixed_ways))]
    pub(crate) fn fixed(&mut self, value: &Value, fixed: &Fixed) -> Result<(), AllocError>
        ensures { OnOk result (PutsTexts (fixed_onto (fixed_tree fixed.now) (value_tree value.now)) self.old self.new) }
    {
        match (value, fixed) {
            (value, Fixed::Element { .. }) => self.bits(value),
            (Value::Group(values), Fixed::Group(members)) => {
                self.text(b"{")?;
                self.members(values, members)?;
                self.text(b"}")?;
                Ok(())
            }
            _ => Ok(()),
        }
    }

    #[cycle(print_fixed)]
    #[tactic(auto, using(crate::proofs::FixedWays::member_ways))]
    fn member(&mut self, value: &Value, member: &Member) -> Result<(), AllocError>
        ensures { OnOk result (PutsTexts (member_onto (member_tree member.now) (value_tree value.now)) self.old self.new) }
    {
        match member {
            Member::Named { name, fixed } => {
                self.text(name.octets())?;
                self.fixed(value, fixed)?;
                Ok(())
            }
            Member::Spare { .. } => {
                self.text(b"spare")?;
                self.bits(value)?;
                Ok(())
            }
        }
    }

    /// Members, one after the other.
    #[cycle(print_fixed)]
    #[tactic(auto, using(crate::proofs::FixedWays::members_ways))]
    pub(crate) fn members(&mut self, values: &Values, members: &Members) -> Result<(), AllocError>
        ensures { OnOk result (PutsTexts (members_onto (members_tree members.now) (values_tree values.now)) self.old self.new) }
    {
        for (member, value) in members.as_slice().iter().zip(values.as_slice()) {
            self.member(value, member)?;
        }
        Ok(())
    }
}
