//! Records and lists of them.
ghost use Rattle.std.specs.Prelude.{◌≤◌, [], IfSome};
ghost use Rattle.ax_format.specs.Plain.{spec_tree};
ghost use Rattle.ax_format.specs.Specification.{record_slots};
ghost use Rattle.ax_printed_lines.specs.Builds.{BuildsRecord};
ghost use Rattle.ax_printed_lines.specs.Printed.{IsAfterOctet, AreSlots, AreRecords};

use crate::cursor::Cursor;
use crate::kinds::entries_built;
use crate::laid::LaidBits;
use crate::pieces::{field_filled, field_room};
use ax_text_lines::TextItems;

// A body has room for fewer records.
const MOST: u32 = 65_536;

/// The entries of a record in braces. They are laid behind room for the FSPEC, which is written once they are there.
fn record_built(
    cursor: &mut Cursor<'_>,
    items: &TextItems<'_>,
    out: &mut LaidBits<'_>,
) -> Option<()>
    requires { AreSlots (record_slots (spec_tree items.now)) }
    ensures { IfSome result (λ done. BuildsRecord (spec_tree items.now) cursor.old cursor.new out.old out.new) }
{
    if !cursor.takes(b"record") || !cursor.opens() {
        return None;
    }
    let room = field_room(items.slots().as_slice().len());
    let at = out.leave(room)?;
    let marks = entries_built(cursor, items.slots(), out)?;
    field_filled(&marks, at, room, out)
}

/// One or more records, up to a brace that ends the line.
pub fn records_built(
    cursor: &mut Cursor<'_>,
    items: &TextItems<'_>,
    out: &mut LaidBits<'_>,
) -> Option<()>
    requires { AreSlots (record_slots (spec_tree items.now)) }
    ensures records { IfSome result (λ done. AreRecords (spec_tree items.now) cursor.old cursor.new out.old out.new) }
    ensures ended { IfSome result (λ done. IsAfterOctet 125 cursor.new.left [] × (cursor.new.level ≤ 20)) }
{
    for _ in 0..MOST {
        record_built(cursor, items, out)?;
        if cursor.ends() {
            return Some(());
        }
    }
    None
}
