//! What a record loses.
ghost use Rattle.std.specs.Prelude.{◌≡◌, ◌++◌, OnOk};
ghost use Rattle.ax_migration.specs.Finding.{path_loss, record_losses};
ghost use Rattle.ax_format.specs.Plain.{entries_tree, record_tree};

use ax_format::{Entries, Record};
use ax_migration::{LossEntry, LossList};
use ax_relation::{RelationPath, RelationPaths, is_there};
use std::alloc::{AllocError, Global};

/// Appends the loss at a path, if there is one. A list of more than 2^32 - 1 losses is a want of memory.
fn lose_path(
    alloc: Global,
    losses: &mut LossList,
    number: u32,
    entries: &Entries,
    path: &RelationPath,
) -> Result<(), AllocError>
    ensures { OnOk result (losses.new ≡ losses.old ++ path_loss number (entries_tree entries.now) path.now) }
{
    let lost = path.new.is_none() && is_there(entries, &path.old, path.part);
    if !lost {
        return Ok(());
    }
    let path = path.text.copy(alloc)?;
    if losses.count() == u32::MAX {
        return Err(AllocError);
    }
    losses.push(LossEntry {
        record_at: number,
        path,
    })?;
    Ok(())
}

/// Appends the losses of a record of that number.
#[tactic(auto, using(crate::proofs::EntryLists::losses))]
pub(crate) fn lose_record(
    alloc: Global,
    losses: &mut LossList,
    number: u32,
    one: &Record,
    paths: &RelationPaths,
) -> Result<(), AllocError>
    ensures { OnOk result (losses.new ≡ losses.old ++ record_losses number (record_tree one.now) paths.now) }
{
    for path in paths.as_slice() {
        lose_path(alloc, losses, number, &one.entries, path)?;
    }
    Ok(())
}
