//! Values of kinds.
ghost use Rattle.std.specs.Prelude.{◌≡◌, map, OnOk};
ghost use Rattle.std.specs.Option.{option_copied, option_map};
ghost use Rattle.ax_format.specs.Plain.{fixed_tree, part_tree, kind_tree, slot_tree, slots_tree, value_tree, values_tree, lists_tree, entries_tree};
ghost use Rattle.ax_format.specs.Shape.{Shape, EachShape, EntriesShape};
ghost use Rattle.ax_format.specs.Tree.{counted, occurrences};
ghost use Rattle.ax_format.specs.declared.kind.Counter.{Counter};
ghost use Rattle.ax_text_form.specs.Printing.{PutsTexts};
ghost use Rattle.ax_text_form.specs.Slots.{slot_numbered, or_spare, SlotShape, entry_onto};
ghost use Rattle.ax_text_form.specs.ValueText.{in_braces, fixed_onto, part_onto, parts_onto, each_onto, kind_onto, entries_onto};

use crate::printer::TreePrinter;
use ax_format::{Entries, Entry, Fixed, Kind, Lists, Part, Parts, Slot, Slots, Value, Values};
use std::alloc::AllocError;

impl TreePrinter {
    /// The parts that are present.
    #[tactic(auto, using(crate::proofs::KindWays::parts_ways))]
    fn parts(&mut self, lists: &Lists, parts: &Parts) -> Result<(), AllocError>
        ensures { OnOk result (PutsTexts (parts_onto (map part_tree parts.now) (lists_tree lists.now)) self.old self.new) }
    {
        for (part, values) in parts.as_slice().iter().zip(lists.as_slice()) {
            self.part(values, part)?;
        }
        Ok(())
    }

    fn part(&mut self, values: &Values, part: &Part) -> Result<(), AllocError>
        ensures { OnOk result (PutsTexts (part_onto (part_tree part.now) (values_tree values.now)) self.old self.new) }
    {
        self.text(b"part")?;
        self.text(b"{")?;
        self.members(values, &part.members)?;
        self.text(b"}")
    }

    /// The occurrences by FX.
    #[tactic(auto, using(crate::proofs::KindWays::run_ways))]
    fn run(&mut self, values: &Values, fixed: &Fixed) -> Result<(), AllocError>
        ensures { OnOk result (PutsTexts (each_onto (fixed_onto (fixed_tree fixed.now)) (values_tree values.now)) self.old self.new) }
    {
        for value in values.as_slice() {
            self.fixed(value, fixed)?;
        }
        Ok(())
    }

    /// The value of an item, a subitem or an occurrence.
    #[cycle(print_kind)]
    #[tactic(auto, using(crate::proofs::KindWays::kind_ways))]
    pub(crate) fn kind(&mut self, value: &Value, kind: &Kind) -> Result<(), AllocError>
        requires { Shape (kind_tree kind.now) (value_tree value.now) }
        ensures { OnOk result (PutsTexts (kind_onto (kind_tree kind.now) (value_tree value.now)) self.old self.new) }
    {
        match (value, kind) {
            (value, Kind::Fixed(fixed)) => self.fixed(value, fixed),
            (Value::Extended(lists), Kind::Extended { parts, .. }) => {
                self.text(b"{")?;
                self.parts(lists, parts)?;
                self.text(b"}")?;
                Ok(())
            }
            (Value::Repeat(values), Kind::Counted { inner, .. }) => self.counted(values, inner),
            (Value::Repeat(values), Kind::ByFx(fixed)) => {
                self.text(b"{")?;
                self.run(values, fixed)?;
                self.text(b"}")?;
                Ok(())
            }
            (Value::Octets(octets), Kind::Explicit) => self.hex(octets.as_slice()),
            (Value::Compound(entries), Kind::Compound(slots)) => {
                self.text(b"{")?;
                self.entries(entries, slots)?;
                self.text(b"}")?;
                Ok(())
            }
            _ => Ok(()),
        }
    }

    /// The occurrences of a counted or wide item.
    #[cycle(print_kind)]
    #[tactic(auto, using(crate::proofs::KindWays::kind_ways))]
    fn counted(&mut self, values: &Values, inner: &Kind) -> Result<(), AllocError>
        requires { (size : Counter) × Shape (counted size (kind_tree inner.now)) (occurrences (values_tree values.now)) }
        ensures { OnOk result (PutsTexts (in_braces (each_onto (kind_onto (kind_tree inner.now)) (values_tree values.now))) self.old self.new) }
    {
        self.text(b"{")?;
        self.each(values, inner)?;
        self.text(b"}")
    }

    /// Values of one kind.
    #[cycle(print_kind)]
    #[tactic(auto, using(crate::proofs::KindWays::each_ways))]
    fn each(&mut self, values: &Values, kind: &Kind) -> Result<(), AllocError>
        requires { EachShape (Shape (kind_tree kind.now)) (values_tree values.now) }
        ensures { OnOk result (PutsTexts (each_onto (kind_onto (kind_tree kind.now)) (values_tree values.now)) self.old self.new) }
    {
        for value in values.as_slice() {
            self.kind(value, kind)?;
        }
        Ok(())
    }

    /// The entries of a compound.
    #[cycle(print_kind)]
    #[tactic(auto, using(crate::proofs::EntryWays::entries_ways))]
    fn entries(&mut self, entries: &Entries, slots: &Slots) -> Result<(), AllocError>
        requires { EntriesShape 1 (slots_tree slots.now) (entries_tree entries.now) }
        ensures { OnOk result (PutsTexts (entries_onto 1 (slots_tree slots.now) (entries_tree entries.now)) self.old self.new) }
    {
        for entry in entries.as_slice() {
            self.entry(entry, slots)?;
        }
        Ok(())
    }

    #[cycle(print_kind)]
    #[tactic(auto, using(crate::proofs::EntryWays::entry_ways))]
    fn entry(&mut self, entry: &Entry, slots: &Slots) -> Result<(), AllocError>
        requires { SlotShape (slot_numbered (slots_tree slots.now) entry.now.slot) (value_tree entry.now.value) }
        ensures { OnOk result (PutsTexts (entry_onto (slots_tree slots.now) entry.now) self.old self.new) }
    {
        if let Some(Slot::Sub { name, kind }) = slot_of(slots, entry.slot) {
            self.text(name.octets())?;
            self.kind(&entry.value, kind)?;
        }
        Ok(())
    }
}

/// The slot of that number, from 1. None comes exactly where there is no such slot.
#[tactic(auto, using(crate::proofs::EntryWays::slot_found))]
pub(crate) fn slot_of(slots: &Slots, number: u32) -> Option<&Slot>
    ensures { or_spare (option_map slot_tree (option_copied result)) ≡ slot_numbered (slots_tree slots.now) number }
{
    if number == 0 {
        return None;
    }
    slots.get(number - 1)
}
