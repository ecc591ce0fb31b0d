//! The commands, over what their files give.
ghost use Rattle.std.specs.Prelude.{◌≡◌, ◌≤◌, ◌^◌, length, IfOk, Ok};
ghost use Rattle.ax_app.specs.Channels.{changes};
ghost use Rattle.ax_app.specs.Commands.{RunsAs, RunsEach, RunsEachPrepared, RunsPrepared, RunsLine, RunsTrial, RunsFilter, RunsFilterOf};
ghost use Rattle.ax_app.specs.Loaded.{named, given_of, AreFew, AreInRange, IsLoadedFor};
ghost use Rattle.ax_app.specs.Rows.{row_of, check_text, show_command, text_command};
ghost use Rattle.ax_app.specs.Tasks.{writes, builds, salvages};
ghost use Rattle.ax_app.specs.declared.loading.Loaded.TheVariants as LoadedOf;
ghost use Rattle.ax_blocks.specs.BlockCommands.{canon_command};
ghost use Rattle.ax_filter.specs.OfCode.{catalogue_of};
ghost use Rattle.ax_format.specs.Plain.{spec_tree, catalogue_tree};
ghost use Rattle.ax_grammar.specs.InRange.{AreNumbersInRange};
ghost use Rattle.ax_words.specs.Words.{IsInBounds};

use crate::channels::Channels;
use crate::each_block::{answer_blocks, answer_job};
use crate::editions::{convert, migrate};
use crate::expanding::expand;
use crate::job::Job;
use crate::loading::{Loaded, NamedFiles};
use crate::outcomes::outcome_of_salvage;
use ax_build_work::build_lines;
use ax_check::{Accepted, Catalogue};
use ax_command::{JobStop, Outcome, Refusal, line_of};
use ax_endpoints::{LONGEST_INPUT, Sink, Source, write_text};
use ax_filter::{FilterStop, read_expression};
use ax_format::Spec;
use ax_grammar::print_spec;
use ax_listing::ShowViews;
use ax_salvage::{Salvage, salvage};
use ax_tables::Codecs;
use ax_text_lines::TextViews;
use ax_trial::trial_text;
use ax_words::Line;
use std::alloc::{AllocError, Global};

/// What `--help` writes.
const HELP: &[u8] = b"asterix check SPEC\n\
    asterix canon SPEC...\n\
    asterix show SPEC...\n\
    asterix text SPEC...\n\
    asterix build SPEC...\n\
    asterix filter EXPR SPEC...\n\
    asterix migrate OLD NEW\n\
    asterix trial SPEC SEED COUNT\n\
    asterix salvage SPEC...\n\
    asterix expand SPEC EXPANSION\n\
    asterix convert OLD NEW\n";

/// What `--version` writes.
const VERSION: &[u8] = b"asterix 1\n";

/// The files of a command, by their names.
pub(crate) fn files(line: &Line) -> NamedFiles<'_>
    ensures names { named result ≡ (row_of line.now).files }
    ensures few { AreFew (named result) }
{
    match line {
        Line::Check { file } => NamedFiles::OneFile(file),
        Line::Canon { files } => NamedFiles::Catalogue(files.as_slice()),
        Line::Show { files } => NamedFiles::Catalogue(files.as_slice()),
        Line::Text { files } => NamedFiles::Catalogue(files.as_slice()),
        Line::Build { files } => NamedFiles::Catalogue(files.as_slice()),
        Line::Filter { files, .. } => NamedFiles::Catalogue(files.as_slice()),
        Line::Migrate { old, new } => NamedFiles::Editions(old, new),
        Line::Trial { file, .. } => NamedFiles::OneFile(file),
        Line::Salvage { files } => NamedFiles::Catalogue(files.as_slice()),
        Line::Expand { spec, expansion } => NamedFiles::WithExpansion(spec, expansion),
        Line::Convert { old, new } => NamedFiles::Editions(old, new),
        Line::Help => NamedFiles::NoFile,
        Line::Version => NamedFiles::NoFile,
    }
}

/// The line of an accepted specification, and its text after it.
fn check_text(alloc: Global, spec: &Spec) -> Result<Vec<u8>, AllocError>
    requires { AreNumbersInRange (spec_tree spec.now) }
    ensures { IfOk result (λ text. text.items ≡ check_text (spec_tree spec.now)) }
{
    let mut text = line_of(alloc, spec)?;
    let printed = print_spec(alloc, spec)?;
    text.extend_from_slice(&printed)?;
    Ok(text)
}

/// Writes a text that counts so many blocks, as one piece.
fn write_out<S: Source, K: Sink, R: Sink>(
    text: &[u8],
    blocks: u64,
    io: Channels<'_, S, K, R>,
) -> Outcome
    ensures { RunsPrepared (writes blocks text.now) (changes S.Source K.Sink R.Sink io.entry io.exit) (Ok result) }
{
    let Channels { out, .. } = io;
    match write_text(out, text) {
        Ok(()) => Outcome::Done { blocks },
        Err(_) => Outcome::WriteFault,
    }
}

/// `check`: writes the line and the text of the accepted file as one piece.
#[tactic(auto, using(crate::proofs::Commands::commands))]
fn check<S: Source, K: Sink, R: Sink>(
    alloc: Global,
    spec: &Accepted,
    io: Channels<'_, S, K, R>,
) -> Result<Outcome, JobStop>
    requires { AreNumbersInRange (spec_tree spec.now) }
    ensures { RunsPrepared (writes 0 (check_text (spec_tree spec.now))) (changes S.Source K.Sink R.Sink io.entry io.exit) result }
{
    let text = check_text(alloc, spec.spec())?;
    Ok(write_out(&text, 0, io))
}

/// `trial`: writes the line of that many blocks made from the seed over the accepted file.
#[tactic(auto, using(crate::proofs::Commands::commands))]
fn trial<S: Source, K: Sink, R: Sink>(
    alloc: Global,
    spec: &Accepted,
    seed: u64,
    count: u32,
    io: Channels<'_, S, K, R>,
) -> Result<Outcome, JobStop>
    requires { count ≤ 1000000 }
    ensures { RunsTrial seed count spec.now (changes S.Source K.Sink R.Sink io.entry io.exit) result }
{
    let line = trial_text(alloc, spec, seed, count)?;
    Ok(write_out(&line, u64::from(count), io))
}

/// `canon`: the canonical form of each block. All memory is taken before the input is read.
#[tactic(auto, using(crate::proofs::Commands::commands))]
fn canon<S: Source, K: Sink, R: Sink>(
    alloc: Global,
    catalogue: &Catalogue,
    io: Channels<'_, S, K, R>,
) -> Result<Outcome, JobStop>
    ensures { RunsEachPrepared (canon_command (catalogue_tree catalogue.now)) (changes S.Source K.Sink R.Sink io.entry io.exit) result }
{
    let codecs = Codecs::compile(alloc, catalogue)?;
    answer_job(alloc, Job::Canon(catalogue, &codecs), io)
}

/// `show`: the listing of each block.
#[tactic(auto, using(crate::proofs::Commands::commands))]
fn show<S: Source, K: Sink, R: Sink>(
    alloc: Global,
    catalogue: &Catalogue,
    io: Channels<'_, S, K, R>,
) -> Result<Outcome, JobStop>
    ensures { RunsEach (show_command (catalogue_tree catalogue.now)) (changes S.Source K.Sink R.Sink io.entry io.exit) result }
{
    let codecs = Codecs::compile(alloc, catalogue)?;
    let mut work = ShowViews::new(alloc, catalogue, &codecs)?;
    answer_blocks(alloc, &mut work, io)
}

/// `text`: the line of each block.
#[tactic(auto, using(crate::proofs::Commands::commands))]
fn text_blocks<S: Source, K: Sink, R: Sink>(
    alloc: Global,
    catalogue: &Catalogue,
    io: Channels<'_, S, K, R>,
) -> Result<Outcome, JobStop>
    ensures { RunsEach (text_command (catalogue_tree catalogue.now)) (changes S.Source K.Sink R.Sink io.entry io.exit) result }
{
    let mut work = TextViews::new(alloc, catalogue)?;
    answer_blocks(alloc, &mut work, io)
}

/// The records of each block that a filter over the catalogue holds of. All memory is taken before the input is read.
#[tactic(auto, using(crate::proofs::Commands::commands))]
fn filter_blocks<S: Source, K: Sink, R: Sink>(
    alloc: Global,
    filter: &ax_filter::Filter<'_>,
    catalogue: &Catalogue,
    io: Channels<'_, S, K, R>,
) -> Result<Outcome, JobStop>
    requires { catalogue_of filter.now ≡ catalogue_tree catalogue.now }
    ensures { RunsFilterOf filter.now (changes S.Source K.Sink R.Sink io.entry io.exit) result }
{
    let codecs = Codecs::compile(alloc, catalogue)?;
    answer_job(alloc, Job::Filter(&codecs, filter), io)
}

/// `filter`: the records of each block that the expression holds of, or the refusal of the expression.
#[tactic(auto, using(crate::proofs::Filters::filter_tasks, crate::proofs::Commands::commands))]
fn filter<S: Source, K: Sink, R: Sink>(
    alloc: Global,
    text: &str,
    catalogue: &Catalogue,
    io: Channels<'_, S, K, R>,
) -> Result<Outcome, JobStop>
    requires { length text.now ≤ 2 ^ 31 }
    ensures { RunsFilter text.now (catalogue_tree catalogue.now) (changes S.Source K.Sink R.Sink io.entry io.exit) result }
{
    match read_expression(alloc, text.as_bytes(), catalogue) {
        Ok(filter) => filter_blocks(alloc, &filter, catalogue, io),
        Err(FilterStop::Refused(fault)) => Err(JobStop::Refused(Refusal::FilterRefused { fault })),
        Err(FilterStop::OutOfMemory) => Err(JobStop::OutOfMemory),
    }
}

/// `build`: a block of each line that has a token.
fn build<S: Source, K: Sink, R: Sink>(
    alloc: Global,
    catalogue: &Catalogue,
    io: Channels<'_, S, K, R>,
) -> Outcome
    ensures { RunsAs (builds (catalogue_tree catalogue.now)) (changes S.Source K.Sink R.Sink io.entry io.exit) (Ok result) }
{
    let Channels { source, out, .. } = io;
    Outcome::from(build_lines(alloc, catalogue, source, out))
}

/// `salvage`: each sound block as it came, and a line on the report for each damaged one. All memory is taken before the input
/// is read.
#[tactic(auto, using(crate::proofs::Commands::commands))]
fn salvage_blocks<S: Source, K: Sink, R: Sink>(
    alloc: Global,
    catalogue: &Catalogue,
    io: Channels<'_, S, K, R>,
) -> Result<Outcome, JobStop>
    ensures { RunsPrepared (salvages (catalogue_tree catalogue.now)) (changes S.Source K.Sink R.Sink io.entry io.exit) result }
{
    let codecs = Codecs::compile(alloc, catalogue)?;
    let mut work = Salvage::new(alloc, catalogue, &codecs, LONGEST_INPUT)?;
    let Channels {
        source,
        out,
        report,
    } = io;
    Ok(outcome_of_salvage(salvage(&mut work, source, out, report)))
}

/// Does what a command over a catalogue says.
fn over_catalogue<S: Source, K: Sink, R: Sink>(
    alloc: Global,
    line: &Line,
    catalogue: &Catalogue,
    io: Channels<'_, S, K, R>,
) -> Result<Outcome, JobStop>
    requires bounds { IsInBounds line.now }
    requires loaded { IsLoadedFor line.now (LoadedOf.Catalogue catalogue.now) }
    ensures { RunsLine line.now (given_of (LoadedOf.Catalogue catalogue.now)) (changes S.Source K.Sink R.Sink io.entry io.exit) result }
{
    match line {
        Line::Canon { .. } => canon(alloc, catalogue, io),
        Line::Show { .. } => show(alloc, catalogue, io),
        Line::Text { .. } => text_blocks(alloc, catalogue, io),
        Line::Build { .. } => Ok(build(alloc, catalogue, io)),
        Line::Filter { expr, .. } => filter(alloc, expr.text(), catalogue, io),
        Line::Salvage { .. } => salvage_blocks(alloc, catalogue, io),
        _ => unreachable!(),
    }
}

/// Does what the command says, over what its files give.
pub(crate) fn do_task<S: Source, K: Sink, R: Sink>(
    alloc: Global,
    line: &Line,
    loaded: &Loaded,
    io: Channels<'_, S, K, R>,
) -> Result<Outcome, JobStop>
    requires bounds { IsInBounds line.now }
    requires in_range { AreInRange (given_of loaded.now).specs }
    requires loaded { IsLoadedFor line.now loaded.now }
    ensures { RunsLine line.now (given_of loaded.now) (changes S.Source K.Sink R.Sink io.entry io.exit) result }
{
    match loaded {
        Loaded::Nothing => match line {
            Line::Help => Ok(write_out(HELP, 0, io)),
            Line::Version => Ok(write_out(VERSION, 0, io)),
            _ => unreachable!(),
        },
        Loaded::One(spec) => match line {
            Line::Check { .. } => check(alloc, spec, io),
            Line::Trial { seed, count, .. } => trial(alloc, spec, *seed, *count, io),
            _ => unreachable!(),
        },
        Loaded::Catalogue(catalogue) => over_catalogue(alloc, line, catalogue, io),
        Loaded::Editions(old, new) => match line {
            Line::Migrate { .. } => migrate(alloc, old, new, io),
            Line::Convert { .. } => convert(alloc, old, new, io),
            _ => unreachable!(),
        },
        Loaded::WithExpansion(spec, expansion) => match line {
            Line::Expand { .. } => expand(alloc, spec, expansion, io),
            _ => unreachable!(),
        },
    }
}
