//! `migrate` and `convert`: the blocks of an old edition in a new one.
ghost use Rattle.std.specs.Prelude.{◌≡◌, [], ◌∷◌, true, false, IfOk, IfErr, OnOk};
ghost use Rattle.ax_app.specs.Channels.{changes};
ghost use Rattle.ax_app.specs.Commands.{RunsEach, RunsEachPrepared, RunsEditions};
ghost use Rattle.ax_app.specs.Rows.{OverEditions};
ghost use Rattle.ax_app.specs.Tasks.{IsStoppedBy};
ghost use Rattle.ax_blocks.specs.Commands.{BlockCommand};
ghost use Rattle.ax_convert_work.specs.ConvertCommand.{convert_command};
ghost use Rattle.ax_format.specs.Plain.{spec_tree};
ghost use Rattle.ax_format.specs.Specification.{SpecTree};
ghost use Rattle.ax_migration.specs.Commands.{migrate_command};
ghost use Rattle.ax_relation.specs.Relates.{Relates};

use crate::channels::Channels;
use crate::each_block::{answer_blocks, answer_job};
use crate::job::Job;
use ax_check::Accepted;
use ax_command::{JobStop, Outcome, Refusal};
use ax_convert_work::ConvertBlocks;
use ax_edition::{RelateError, Relation, relate};
use ax_endpoints::{Sink, Source};
use ax_migrate_views::Migrator;
use ax_tables::compile;
use std::alloc::Global;

/// The relation of two editions, or the refusal of two categories.
#[tactic(auto, using(crate::proofs::TwoEditions::editions_tasks))]
fn related(alloc: Global, old: &Accepted, new: &Accepted) -> Result<Relation, JobStop>
    ensures relates { IfOk result (Relates old.now new.now) }
    ensures same_category { OnOk result (old.now.category ≡ new.now.category) }
    ensures stopped { (command : SpecTree → SpecTree → BlockCommand)
        → IfErr result (IsStoppedBy (OverEditions command (spec_tree old.now ∷ spec_tree new.now ∷ []))) }
{
    match relate(alloc, old, new) {
        Ok(relation) => Ok(relation),
        Err(RelateError::OtherCategory { old, new }) => {
            Err(JobStop::Refused(Refusal::OtherCategory { old, new }))
        }
        Err(RelateError::OutOfMemory) => Err(JobStop::OutOfMemory),
    }
}

/// Each block of the old edition in the new one, by the relation of the two. All memory is taken before the input is read.
#[tactic(auto, using(crate::proofs::Commands::commands))]
fn migrate_blocks<'x, S: Source, K: Sink, R: Sink>(
    alloc: Global,
    relation: &'x Relation,
    old: &'x Accepted,
    new: &'x Accepted,
    io: Channels<'_, S, K, R>,
) -> Result<Outcome, JobStop>
    requires { Relates old.now new.now relation.now }
    ensures { RunsEachPrepared (migrate_command (spec_tree old.now) (spec_tree new.now)) (changes S.Source K.Sink R.Sink io.entry io.exit) result }
{
    let codec = compile(alloc, old)?;
    let migrator = Migrator::new(alloc, old.spec(), new.spec(), relation, &codec)?;
    answer_job(alloc, Job::Migrate(&migrator), io)
}

/// `migrate`: each block of the old edition in the new one, or the refusal of two categories.
#[tactic(auto, using(crate::proofs::TwoEditions::editions_tasks, crate::proofs::Commands::commands))]
pub(crate) fn migrate<S: Source, K: Sink, R: Sink>(
    alloc: Global,
    old: &Accepted,
    new: &Accepted,
    io: Channels<'_, S, K, R>,
) -> Result<Outcome, JobStop>
    ensures { RunsEditions migrate_command false old.now new.now (changes S.Source K.Sink R.Sink io.entry io.exit) result }
{
    let relation = related(alloc, old, new)?;
    migrate_blocks(alloc, &relation, old, new, io)
}

/// Each block of the old edition in the new one, its quantities converted, by the relation of the two.
#[tactic(auto, using(crate::proofs::Commands::commands))]
fn convert_blocks<'x, S: Source, K: Sink, R: Sink>(
    alloc: Global,
    relation: &'x Relation,
    old: &'x Accepted,
    new: &'x Accepted,
    io: Channels<'_, S, K, R>,
) -> Result<Outcome, JobStop>
    requires { Relates old.now new.now relation.now }
    ensures { RunsEach (convert_command (spec_tree old.now) (spec_tree new.now)) (changes S.Source K.Sink R.Sink io.entry io.exit) result }
{
    let codec = compile(alloc, old)?;
    let migrator = Migrator::new(alloc, old.spec(), new.spec(), relation, &codec)?;
    let mut work = ConvertBlocks::new(alloc, relation, old, new, &migrator)?;
    answer_blocks(alloc, &mut work, io)
}

/// `convert`: each block of the old edition in the new one, its quantities converted, or the refusal of two categories.
#[tactic(auto, using(crate::proofs::TwoEditions::editions_tasks, crate::proofs::Commands::commands))]
pub(crate) fn convert<S: Source, K: Sink, R: Sink>(
    alloc: Global,
    old: &Accepted,
    new: &Accepted,
    io: Channels<'_, S, K, R>,
) -> Result<Outcome, JobStop>
    ensures { RunsEditions convert_command true old.now new.now (changes S.Source K.Sink R.Sink io.entry io.exit) result }
{
    let relation = related(alloc, old, new)?;
    convert_blocks(alloc, &relation, old, new, io)
}
