//! Blocks of one edition in another.
ghost use Rattle.std.specs.Prelude.{◌≡◌, ◌≤◌, length, IfOk, IfErr};
ghost use Rattle.ax_relation.specs.Relates.{Relates};
ghost use Rattle.ax_migrate_views.specs.Blocks.{LaysMigrated, new_tree, old_tree, with_head};
ghost use Rattle.ax_migrate_views.specs.Losses.{TellsLosses};
ghost use Rattle.ax_format.specs.Plain.{spec_tree};
ghost use Rattle.ax_format.specs.Sizes.{longest_body};
ghost use Rattle.ax_codec.specs.Standing.{IsCompiled};
ghost use Rattle.ax_walk.specs.Views.{FailsThere, SpellsSome};

use crate::bodies::{Laid, ToldKeys, lay_body};
use crate::kept::kept_slots;
use crate::migrator::Migrator;
use ax_codec::Codec;
use ax_format::{BodyFault, Spec};
use ax_moves::{know_moves, lost_keys};
use ax_relation::Relation;
use std::alloc::{AllocError, Global};

/// Writes CAT and LEN over the first three octets.
fn write_head(category: u8, count: u32, output: &mut [u8])
    requires { 3 ≤ length output.old }
    ensures { output.new ≡ with_head category count output.old }
{
    output[0] = category;
    output[1] = (count / 256 % 256) as u8;
    output[2] = (count % 256) as u8;
}

impl<'c> Migrator<'c> {
    /// Migration between two editions.
    pub fn new(
        alloc: Global,
        old: &'c Spec,
        new: &'c Spec,
        relation: &'c Relation,
        codec: &'c Codec,
    ) -> Result<Migrator<'c>, AllocError>
        requires related { Relates old.now new.now relation.now }
        requires compiled { IsCompiled codec.now (spec_tree old.now) }
        ensures old { IfOk result (λ made. old_tree made ≡ spec_tree old.now) }
        ensures new { IfOk result (λ made. new_tree made ≡ spec_tree new.now) }
        ensures codec { IfOk result (λ made. made.codec.now ≡ codec.now) }
    {
        let lost = lost_keys(alloc, relation.paths())?;
        let known = know_moves(alloc, codec, relation.moves())?;
        let kept = kept_slots(alloc, codec, relation.moves(), lost.as_slice())?;
        Ok(Migrator {
            old,
            new,
            relation,
            codec,
            lost,
            known,
            kept,
        })
    }

    /// The codec of the old edition.
    pub fn old(&self) -> &'c Codec
        ensures { result.now ≡ self.now.codec.now }
    {
        self.codec
    }

    /// Lays the canonical form of the migrated block of a body at the front of the output, and the lines of what its records
    /// lose at the front of `lines`, for a block of that number. Answers the octets of both; where the block's or the lines'
    /// are more than 65,535, what is laid there is none. The body is judged in the same walk: a fault is its first one, by
    /// bits of the body from 0.
    pub fn lay(
        &self,
        number: u64,
        body: &[u8],
        output: &mut [u8],
        lines: &mut [u8],
    ) -> Result<Laid, BodyFault>
        requires size { (1 ≤ length body.now) × (length body.now ≤ longest_body) }
        requires room { length output.old ≡ 131067 }
        requires lines_room { length lines.old ≡ 131067 }
        ensures spelled { IfOk result (λ laid. SpellsSome self.now.codec.now body.now) }
        ensures laid { IfOk result (λ laid. LaysMigrated self.now body.now laid.octets output.new) }
        ensures told { IfOk result (λ laid. TellsLosses self.now body.now number laid.lines lines.new) }
        ensures fault { IfErr result (λ fault. FailsThere self.now.codec.now body.now fault) }
        ensures room { length output.new ≡ 131067 }
        ensures lines_room { length lines.new ≡ 131067 }
    {
        let lost = ToldKeys {
            block: number,
            keys: self.lost.as_slice(),
        };
        let laid = lay_body(self, body, lost, output, lines)?;
        write_head(self.codec.category(), laid.octets, output);
        Ok(laid)
    }

    /// Lays the canonical form of the migrated block of a body at the front of the output, as `lay` does, and answers its octets.
    /// No lines of what is lost are laid.
    pub(crate) fn lay_block(
        &self,
        body: &[u8],
        output: &mut [u8],
        lines: &mut [u8],
    ) -> Result<u32, BodyFault>
        requires size { (1 ≤ length body.now) × (length body.now ≤ longest_body) }
        requires room { length output.old ≡ 131067 }
        requires lines_room { length lines.old ≡ 131067 }
        ensures laid { IfOk result (λ octets. LaysMigrated self.now body.now octets output.new) }
        ensures fault { IfErr result (λ fault. FailsThere self.now.codec.now body.now fault) }
        ensures room { length output.new ≡ 131067 }
        ensures lines_room { length lines.new ≡ 131067 }
    {
        let none = ToldKeys {
            block: 0,
            keys: &[],
        };
        let laid = lay_body(self, body, none, output, lines)?;
        let count = laid.octets;
        write_head(self.codec.category(), count, output);
        Ok(count)
    }
}
