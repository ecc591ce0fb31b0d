//! The lines of the records of a block.
ghost use Rattle.std.specs.Prelude.{◌≡◌, ◌++◌, OnOk};
ghost use Rattle.ax_expand_work.specs.Gathering.{GathersRecord, GathersView};
ghost use Rattle.ax_walk.specs.Shown.{record_entries};

use crate::contents::{ContentLines, gather_content};
use crate::lines::RecordNumber;
use ax_expand::AcceptedExpansion;
use ax_walk::{BlockView, RecordView};
use std::alloc::{AllocError, Global};

/// What is expanded: RE, which has that field reference number, by its expansion.
#[derive(Clone, Copy)]
pub(crate) struct Expanded<'e> {
    pub(crate) expansion: &'e AcceptedExpansion,
    pub(crate) frn: u32,
}

/// Gathers the line of RE's content in a record, where RE is marked.
fn gather_record(
    alloc: Global,
    re: Expanded<'_>,
    name: RecordNumber,
    one: &RecordView<'_, '_>,
    lines: &mut ContentLines,
) -> Result<(), AllocError>
    ensures { OnOk result (GathersRecord re.entry name (record_entries one.now) lines.old lines.new) }
{
    let Some(item) = one.item(re.frn) else {
        return Ok(());
    };
    match item.explicit() {
        Some(content) => gather_content(alloc, re.expansion, name, content, lines),
        None => Ok(()),
    }
}

/// Gathers the lines of the contents of RE in the records of a view, in order.
pub(crate) fn gather_block(
    alloc: Global,
    re: Expanded<'_>,
    block: u64,
    view: &BlockView<'_, '_>,
    lines: &mut ContentLines,
) -> Result<(), AllocError>
    ensures { OnOk result (GathersView re.entry block view.now lines.old lines.new) }
{
    let mut records = view.records();
    for number in 0..view.count() {
        let Some(one) = records.next() else {
            return Ok(());
        };
        let name = RecordNumber { block, number };
        gather_record(alloc, re, name, &one, lines)?;
    }
    Ok(())
}
