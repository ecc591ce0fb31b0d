//! The command that clap parses: one level of subcommands, each with its words.
ghost use Rattle.std.specs.Prelude.{◌≡◌, IfOk, false, [], ◌∷◌};
ghost use Rattle.clap.specs.Words.{app_of, rule_of, shape_of};
ghost use Rattle.clap.specs.declared.builder.command.Command.TheViews.{out-Command as fields_of};
ghost use Rattle.ax_words.specs.Commands.{one_word, some_words, leaf, leaf_of_three, leaf_shape, rules_of, bare, with_verb, program};

use crate::line::{VERBS, Verb};
use crate::shape::Shape;
use clap::{Arg, Command};
use std::alloc::{AllocError, Global};

/// One word.
fn word<'a>(alloc: Global, id: &'a str) -> Arg<'a>
    ensures rule { rule_of result ≡ one_word id.entry.now }
    ensures local { result.global ≡ false }
{
    Arg::new(alloc, id).required(true)
}

/// One or more words.
fn words<'a>(alloc: Global, id: &'a str) -> Arg<'a>
    ensures rule { rule_of result ≡ some_words id.entry.now }
    ensures local { result.global ≡ false }
{
    Arg::new(alloc, id).required(true).num_args(1..)
}

/// A subcommand with one word.
fn with_word<'a>(alloc: Global, name: &'a str, id: &'a str) -> Result<Command<'a>, AllocError>
    ensures app { IfOk result (λ c. app_of c ≡ leaf name.entry.now (one_word id.entry.now ∷ [])) }
    ensures local { IfOk result (λ c. (fields_of c).has_globals ≡ false) }
{
    Command::new(alloc, name).arg(word(alloc, id))
}

/// A subcommand with one or more words.
fn with_words<'a>(alloc: Global, name: &'a str, id: &'a str) -> Result<Command<'a>, AllocError>
    ensures app { IfOk result (λ c. app_of c ≡ leaf name.entry.now (some_words id.entry.now ∷ [])) }
    ensures local { IfOk result (λ c. (fields_of c).has_globals ≡ false) }
{
    Command::new(alloc, name).arg(words(alloc, id))
}

/// A subcommand with one word, and one or more after it.
fn with_word_and_words<'a>(
    alloc: Global,
    name: &'a str,
    first: &'a str,
    rest: &'a str,
) -> Result<Command<'a>, AllocError>
    ensures app { IfOk result (λ c. app_of c ≡ leaf name.entry.now (one_word first.entry.now ∷ some_words rest.entry.now ∷ [])) }
    ensures local { IfOk result (λ c. (fields_of c).has_globals ≡ false) }
{
    let command = with_word(alloc, name, first)?;
    command.arg(words(alloc, rest))
}

/// A subcommand with two words.
fn with_two_words<'a>(
    alloc: Global,
    name: &'a str,
    first: &'a str,
    second: &'a str,
) -> Result<Command<'a>, AllocError>
    ensures app { IfOk result (λ c. app_of c ≡ leaf name.entry.now (one_word first.entry.now ∷ one_word second.entry.now ∷ [])) }
    ensures local { IfOk result (λ c. (fields_of c).has_globals ≡ false) }
{
    let command = with_word(alloc, name, first)?;
    command.arg(word(alloc, second))
}

/// A subcommand with three words.
fn with_three_words<'a>(
    alloc: Global,
    name: &'a str,
    first: &'a str,
    second: &'a str,
    third: &'a str,
) -> Result<Command<'a>, AllocError>
    ensures app { IfOk result (λ c. app_of c ≡ leaf_of_three name.entry.now first.entry.now second.entry.now third.entry.now) }
    ensures local { IfOk result (λ c. (fields_of c).has_globals ≡ false) }
{
    let command = with_two_words(alloc, name, first, second)?;
    command.arg(word(alloc, third))
}

/// A subcommand with the words of this shape.
fn with_shape<'a>(alloc: Global, name: &'a str, shape: Shape) -> Result<Command<'a>, AllocError>
    ensures shape { IfOk result (λ c. shape_of c ≡ leaf_shape name.entry.now (rules_of shape)) }
    ensures local { IfOk result (λ c. (fields_of c).has_globals ≡ false) }
{
    match shape {
        Shape::OneFile => with_word(alloc, name, "SPEC"),
        Shape::Catalogue => with_words(alloc, name, "SPEC"),
        Shape::Expression => with_word_and_words(alloc, name, "EXPR", "SPEC"),
        Shape::Editions => with_two_words(alloc, name, "OLD", "NEW"),
        Shape::Expansion => with_two_words(alloc, name, "SPEC", "EXPANSION"),
        Shape::Numbers => with_three_words(alloc, name, "SPEC", "SEED", "COUNT"),
    }
}

/// The command without its subcommands.
fn bare_command<'a>(alloc: Global) -> Command<'a>
    ensures { app_of result ≡ bare }
{
    Command::new(alloc, "asterix")
        .no_binary_name(true)
        .disable_help_flag(true)
        .disable_help_subcommand(true)
        .disable_version_flag(true)
        .subcommand_required(true)
}

/// The command with the subcommand of a verb.
fn with_verb<'a>(alloc: Global, command: Command<'a>, verb: Verb) -> Result<Command<'a>, AllocError>
    ensures { IfOk result (λ c. app_of c ≡ with_verb (app_of command.entry) verb) }
{
    let name: &'a str = verb.name();
    let sub = with_shape(alloc, name, verb.shape())?;
    command.subcommand(sub)
}

/// The whole command.
pub(crate) fn command<'a>(alloc: Global) -> Result<Command<'a>, AllocError>
    ensures { IfOk result (λ c. app_of c ≡ program) }
{
    let mut command = bare_command(alloc);
    for verb in VERBS {
        command = with_verb(alloc, command, verb)?;
    }
    Ok(command)
}
