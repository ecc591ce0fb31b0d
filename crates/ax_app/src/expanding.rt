//! `expand`: the lines of the contents of RE.
ghost use Rattle.std.specs.Prelude.{◌≡◌, Some};
ghost use Rattle.ax_app.specs.Channels.{changes};
ghost use Rattle.ax_app.specs.Commands.{RunsEach, RunsExpand};
ghost use Rattle.ax_expand.specs.Expansion.{expansion_tree};
ghost use Rattle.ax_expand_work.specs.ExpandCommand.{expand_command, re_frn};
ghost use Rattle.ax_format.specs.Plain.{spec_tree};

use crate::channels::Channels;
use crate::each_block::answer_blocks;
use ax_check::Accepted;
use ax_command::{JobStop, Outcome, Refusal};
use ax_endpoints::{Sink, Source};
use ax_expand::AcceptedExpansion;
use ax_expand_work::{ExpandViews, re_slot};
use ax_tables::compile;
use std::alloc::Global;

/// The lines of RE, which has that field reference number, in each block.
#[tactic(auto, using(crate::proofs::Commands::commands))]
fn expand_blocks<S: Source, K: Sink, R: Sink>(
    alloc: Global,
    spec: &Accepted,
    expansion: &AcceptedExpansion,
    frn: u32,
    io: Channels<'_, S, K, R>,
) -> Result<Outcome, JobStop>
    requires { re_frn (spec_tree spec.now) ≡ Some frn }
    ensures { RunsEach (expand_command (spec_tree spec.now) frn (expansion_tree expansion.now)) (changes S.Source K.Sink R.Sink io.entry io.exit) result }
{
    let codec = compile(alloc, spec)?;
    let mut work = ExpandViews::new(alloc, spec, &codec, expansion, frn);
    answer_blocks(alloc, &mut work, io)
}

/// `expand`: the lines of the contents of RE in each block; or the refusal of two categories, or of an expansion for which the
/// UAP has no item RE of kind explicit.
#[tactic(auto, using(crate::proofs::Expansions::expand_tasks, crate::proofs::Commands::commands))]
pub(crate) fn expand<S: Source, K: Sink, R: Sink>(
    alloc: Global,
    accepted: &Accepted,
    expansion: &AcceptedExpansion,
    io: Channels<'_, S, K, R>,
) -> Result<Outcome, JobStop>
    ensures { RunsExpand accepted.now expansion.now (changes S.Source K.Sink R.Sink io.entry io.exit) result }
{
    let old = accepted.spec().category;
    let new = expansion.expansion().category;
    if old != new {
        return Err(JobStop::Refused(Refusal::OtherCategory { old, new }));
    }
    let Some(frn) = re_slot(accepted.spec()) else {
        let category = old;
        return Err(JobStop::Refused(Refusal::ExpansionUnused { category }));
    };
    expand_blocks(alloc, accepted, expansion, frn, io)
}
