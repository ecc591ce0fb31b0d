//! The next loss. Nothing here takes memory.
ghost use Rattle.std.specs.Prelude.{◌≡◌, [], ◌∷◌, IfSome, IfNone};
ghost use Rattle.std.specs.Iterator.{YieldsFirstBy, item_count};
ghost use Rattle.ax_migrate_views.specs.Losses.{loss_shown, losses_here, losses_left, losses_of_record};

use crate::losses::{Losses, RecordLosses};
use ax_migration::Loss;
use ax_moves::is_there;

impl<'m> Iterator for RecordLosses<'m> {
    type Item = Loss<'m>;

    ghost next_gives = { YieldsFirstBy loss_shown losses_of_record };

    ghost remaining = { item_count losses_of_record };

    fn next(&mut self) -> Option<Loss<'m>> {
        while let Some((path, later)) = self.left.split_first() {
            self.left = later;
            if path.new.is_none() && is_there(&self.record, &path.old, path.part) {
                return Some(Loss {
                    record_at: self.number,
                    path: &path.text,
                });
            }
        }
        None
    }
}

impl<'m> Losses<'m> {
    /// The next loss of the record that is looked at.
    fn next_here(&mut self) -> Option<Loss<'m>>
        ensures some { IfSome result (λ loss. losses_here self.old.here ≡ loss_shown loss ∷ losses_here self.new.here) }
        ensures none { IfNone result ((losses_here self.old.here ≡ []) × (losses_here self.new.here ≡ [])) }
        ensures paths { self.new.paths ≡ self.old.paths }
        ensures count { self.new.count ≡ self.old.count }
        ensures later { self.new.later ≡ self.old.later }
    {
        match &mut self.here {
            Some(here) => here.next(),
            None => None,
        }
    }
}

impl<'m> Iterator for Losses<'m> {
    type Item = Loss<'m>;

    ghost next_gives = { YieldsFirstBy loss_shown losses_left };

    ghost remaining = { item_count losses_left };

    fn next(&mut self) -> Option<Loss<'m>> {
        loop {
            if let Some(loss) = self.next_here() {
                return Some(loss);
            }
            let Some(record) = self.later.next() else {
                return None;
            };
            self.here = Some(RecordLosses {
                record,
                number: self.count,
                left: self.paths.as_slice(),
            });
            self.count += 1;
        }
    }
}
