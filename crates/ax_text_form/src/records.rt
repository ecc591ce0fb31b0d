//! Records as text.
ghost use Rattle.std.specs.Prelude.{◌≡◌, IfOk, OnOk};
ghost use Rattle.ax_format.specs.Bodies.{RecordShape};
ghost use Rattle.ax_format.specs.Plain.{spec_tree, value_tree, entries_tree, record_tree};
ghost use Rattle.ax_format.specs.Shape.{EntriesShape};
ghost use Rattle.ax_format.specs.Specification.{record_slots};
ghost use Rattle.ax_text_form.specs.BlockText.{RecordLine};
ghost use Rattle.ax_text_form.specs.Printing.{PutsTexts};
ghost use Rattle.ax_text_form.specs.Slots.{slot_numbered, SlotShape, entry_onto};
ghost use Rattle.ax_text_form.specs.ValueText.{entries_onto};

use crate::printer::TreePrinter;
use ax_format::{Entries, Entry, Record, Spec};
use std::alloc::{AllocError, Global};

/// The text of a record: its tokens from `record` to the closing brace, with one space between and no line feed. The
/// record has the shape of the specification, as one of a block that fits it.
#[tactic(auto, using(crate::proofs::BlockWays::record_ways))]
pub fn record_text(alloc: Global, spec: &Spec, one: &Record) -> Result<Vec<u8>, AllocError>
    requires { RecordShape (spec_tree spec.now) (record_tree one.now) }
    ensures { IfOk result (λ text. text.items ≡ RecordLine (spec_tree spec.now) (record_tree one.now)) }
{
    let mut printer = TreePrinter {
        alloc,
        out: Vec::from_slice(alloc, b"record")?,
    };
    printer.text(b"{")?;
    printer.items(&one.entries, spec)?;
    printer.text(b"}")?;
    let TreePrinter { out, .. } = printer;
    Ok(out)
}

impl TreePrinter {
    /// The entries of a record.
    #[tactic(auto, using(crate::proofs::EntryWays::entries_ways))]
    fn items(&mut self, entries: &Entries, spec: &Spec) -> Result<(), AllocError>
        requires { EntriesShape 1 (record_slots (spec_tree spec.now)) (entries_tree entries.now) }
        ensures { OnOk result (PutsTexts (entries_onto 1 (record_slots (spec_tree spec.now)) (entries_tree entries.now)) self.old self.new) }
    {
        for entry in entries.as_slice() {
            self.item(entry, spec)?;
        }
        Ok(())
    }

    #[tactic(auto, using(crate::proofs::RecordWays::item_ways))]
    fn item(&mut self, entry: &Entry, spec: &Spec) -> Result<(), AllocError>
        requires { SlotShape (slot_numbered (record_slots (spec_tree spec.now)) entry.now.slot) (value_tree entry.now.value) }
        ensures { OnOk result (PutsTexts (entry_onto (record_slots (spec_tree spec.now)) entry.now) self.old self.new) }
    {
        if let Some(item) = spec.slot(entry.slot) {
            self.text(item.name.octets())?;
            self.kind(&entry.value, &item.kind)?;
        }
        Ok(())
    }
}
