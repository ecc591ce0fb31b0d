//! The block loops of a command over its channels.
ghost use Rattle.ax_app.specs.Channels.{changes};
ghost use Rattle.ax_app.specs.Commands.{RunsEach, RunsEachPrepared};
ghost use Rattle.ax_app.specs.Working.{IsSoundJob, job_command};

use crate::channels::Channels;
use crate::driving::drive;
use crate::job::Job;
use crate::outcomes::outcome_of;
use crate::work::Work;
use ax_blocks::{BlockWork, run_blocks};
use ax_command::{JobStop, Outcome};
use ax_endpoints::{LONGEST_INPUT, Sink, Source};
use std::alloc::Global;

/// Does a work on each block of the input, that may take memory for each.
#[tactic(auto, using(crate::proofs::Commands::commands))]
pub(crate) fn answer_blocks<W: BlockWork, S: Source, K: Sink, R: Sink>(
    alloc: Global,
    work: &mut W,
    io: Channels<'_, S, K, R>,
) -> Result<Outcome, JobStop>
    requires { W.sound work.old }
    ensures { RunsEach (W.command work.old) (changes S.Source K.Sink R.Sink io.entry io.exit) result }
{
    let Channels {
        source,
        out,
        report,
    } = io;
    Ok(Outcome::from(run_blocks(alloc, work, source, out, report)))
}

/// Does a job on each block of the input. All memory is taken before the input is read.
#[tactic(auto, using(crate::proofs::Commands::commands))]
pub(crate) fn answer_job<S: Source, K: Sink, R: Sink>(
    alloc: Global,
    job: Job<'_, '_>,
    io: Channels<'_, S, K, R>,
) -> Result<Outcome, JobStop>
    requires { IsSoundJob job }
    ensures { RunsEachPrepared (job_command job.entry) (changes S.Source K.Sink R.Sink io.entry io.exit) result }
{
    let mut work = Work::new(alloc, job, LONGEST_INPUT)?;
    let Channels {
        source,
        out,
        report,
    } = io;
    Ok(outcome_of(drive(&mut work, source, out, report)))
}
