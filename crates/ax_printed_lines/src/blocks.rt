//! Blocks.
ghost use Rattle.std.specs.Prelude.{◌≡◌, IfSome};
ghost use Rattle.ax_format.specs.Plain.{catalogue_tree};
ghost use Rattle.ax_printed_lines.specs.Printed.{IsPrinted};

use crate::cursor::Cursor;
use crate::laid::LaidBits;
use crate::records::records_built;
use ax_text_lines::PrintedUaps;

/// Where the line is the text of a block of a category that the catalogue has, with separators between its tokens and no comment, the
/// body of its canonical form is laid, and this is its category. None says nothing of the line: it comes for any other text, and where
/// the body needs more room than is lent. Takes no memory.
pub fn printed_body(tables: &PrintedUaps<'_>, line: &[u8], out: &mut LaidBits<'_>) -> Option<u8>
    ensures { IfSome result (λ category. IsPrinted (catalogue_tree tables.now) line.now category out.old out.new) }
{
    let mut cursor = Cursor::new(line);
    if !cursor.takes(b"block") {
        return None;
    }
    let category = cursor.category()?;
    let table = tables.get(category)?;
    if !cursor.opens() {
        return None;
    }
    records_built(&mut cursor, &table.items, out)?;
    Some(category)
}
