//! The marks of entries.
ghost use Rattle.std.specs.Prelude.{◌≡◌};
ghost use Rattle.ax_fspec.specs.Fields.{least_field};
ghost use Rattle.ax_format.specs.Plain.{entries_tree};
ghost use Rattle.ax_format.specs.Tree.{SlotsTree};
ghost use Rattle.ax_values.specs.Writing.{AreEntriesOf, entries_presence};

use ax_format::Entries;
use ax_fspec::Presence;

/// The set of the slots that have entries.
pub fn entry_marks(entries: &Entries) -> Presence
    requires { (ss : SlotsTree) × AreEntriesOf ss (entries_tree entries.now) }
    ensures { (ss : SlotsTree) → AreEntriesOf ss (entries_tree entries.now) → least_field result ≡ entries_presence ss (entries_tree entries.now) }
{
    let mut marks = Presence::empty();
    for entry in entries.as_slice() {
        marks.mark(entry.slot);
    }
    marks
}
