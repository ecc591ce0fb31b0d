//! What stands at a path of the new edition, and below one.
ghost use Rattle.std.specs.Prelude.{◌≡◌, [], Some, IfOk};
ghost use Rattle.ax_format.specs.Tree.{compound};
ghost use Rattle.ax_edition.specs.Relating.{target_there, lead, LeadsBelow};
ghost use Rattle.ax_edition.specs.SlotItems.{items_tree};

use crate::index::{Index, index_below, index_items};
use crate::record_items::SlotItems;
use crate::way::with_number;
use ax_format::{Kind, Name, Steps};
use std::alloc::{AllocError, Global};

/// What stands at a path of the new edition: the slot numbers on the way to it, the first of which is an FRN, and its kind.
pub(crate) struct Target<'k> {
    pub(crate) numbers: Steps,
    pub(crate) kind: &'k Kind,
}

impl Drop for Target<'_> {
    fn drop(self) {
        let Target {
            numbers: _numbers,
            kind: _kind,
        } = self;
    }
}

/// What stands below a path of the new edition, by name.
pub(crate) struct Level<'k> {
    numbers: Steps,
    index: Index<'k>,
}

impl Drop for Level<'_> {
    fn drop(self) {
        let Level {
            numbers: _numbers,
            index: _index,
        } = self;
    }
}

impl<'k> Level<'k> {
    /// What stands below a target. Below none there is nothing.
    pub(crate) fn below(alloc: Global, target: &Option<Target<'k>>) -> Result<Level<'k>, AllocError>
        ensures { IfOk result (λ level. LeadsBelow (target_there target.now) level) }
    {
        match target {
            None => Ok(Level {
                numbers: Steps::new(alloc),
                index: index_below(alloc, &None)?,
            }),
            Some(target) => Ok(Level {
                numbers: target.numbers.copy(alloc)?,
                index: index_below(alloc, &Some(target.kind))?,
            }),
        }
    }

    /// The items of a record.
    pub(crate) fn of_record(alloc: Global, items: &SlotItems<'k>) -> Result<Level<'k>, AllocError>
        ensures { IfOk result (λ level. LeadsBelow (Some ([], compound (items_tree items.now))) level) }
    {
        Ok(Level {
            numbers: Steps::new(alloc),
            index: index_items(alloc, items)?,
        })
    }

    /// What stands at a name.
    pub(crate) fn find(&self, alloc: Global, name: &Name) -> Result<Option<Target<'k>>, AllocError>
        ensures { IfOk result (λ made. target_there made ≡ lead self.now name.now) }
    {
        match self.index.find(name) {
            None => Ok(None),
            Some((number, kind)) => Ok(Some(Target {
                numbers: with_number(alloc, &self.numbers, number)?,
                kind,
            })),
        }
    }
}
