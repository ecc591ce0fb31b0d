//! What the words ask for.
ghost use Rattle.std.specs.Prelude.{◌≡◌, [], ◌∷◌, ◌⊎◌, ◌<◌, ◌≤◌, ◌^◌, ◌↔◌, IsTrue, Some, None, map, length, codes, IfOk, MatchResult};
ghost use Rattle.std.specs.List.{AllByRecursion};
ghost use Rattle.std.specs.String.{string_bytes};
ghost use Rattle.clap.specs.Words.{rows_of, found_of};
ghost use Rattle.ax_words.specs.Found.{LacksSpecs, spec_words, word_under};
ghost use Rattle.ax_words.specs.Arguments.{one_file, catalogue, expression, editions, expansion, numbers};
ghost use Rattle.ax_words.specs.Lines.{Gives, HasFewFiles, IsLineOf};
ghost use Rattle.ax_words.specs.declared.shape.Shape.TheVariants as Shape;
ghost use Rattle.ax_words.specs.Words.{IsPlain, JudgesWords};

use crate::builder::command;
use crate::error::WordsError;
use crate::line::{Line, Verb, WordText, WordTexts};
use crate::number::{count_of, seed_of};
use crate::verb::verb_named;
use clap::ArgMatches;
use clap::error::ErrorKind;
use std::alloc::{AllocError, Global};

/// The most octets of an expression.
const LONGEST_EXPRESSION: usize = 1 << 31;

/// Whether the word doesn't begin with `-`.
fn is_plain(word: &str) -> bool
    ensures { IsTrue result ↔ IsPlain word.now }
{
    match word.as_bytes() {
        [first, ..] => *first != b'-',
        [] => true,
    }
}

/// Whether no word begins with `-`.
fn are_plain(words: &[String]) -> bool
    ensures { IsTrue result ↔ AllByRecursion IsPlain (map string_bytes words.now) }
{
    let mut rest = words;
    while let Some((word, later)) = rest.split_first() {
        if !is_plain(word.as_str()) {
            return false;
        }
        rest = later;
    }
    true
}

/// The word of an argument that takes one.
#[tactic(auto, using(crate::proofs::Getters::getters))]
fn word_of<'w>(matches: &ArgMatches<'w>, id: &str) -> Result<&'w str, WordsError>
    ensures { MatchResult result (λ w. word_under id.now matches.now ≡ Some w.now) (λ e. word_under id.now matches.now ≡ None) }
{
    match matches.get_str(id) {
        Some(word) => Ok(word),
        None => Err(WordsError::Usage),
    }
}

/// A copy of the words.
fn copied(alloc: Global, words: &[&str]) -> Result<WordTexts, AllocError>
    requires { length words.now < 4294967296 }
    ensures { IfOk result (λ texts. texts ≡ map (λ word. word.now) words.now) }
{
    let mut texts = WordTexts::new(alloc);
    for word in words {
        texts.push(WordText::of(alloc, word)?)?;
    }
    Ok(texts)
}

/// The words of SPEC.
#[tactic(auto, using(crate::proofs::Getters::getters))]
fn files_of(alloc: Global, matches: &ArgMatches<'_>) -> Result<WordTexts, WordsError>
    requires { HasFewFiles (rows_of (found_of matches.now)) }
    ensures { MatchResult result (λ files. spec_words matches.now ≡ Some files) (λ e. LacksSpecs matches.now e) }
{
    match matches.get_strs("SPEC") {
        Some(words) => Ok(copied(alloc, words)?),
        None => Err(WordsError::Usage),
    }
}

/// The file of `SPEC`.
#[tactic(auto, using(crate::proofs::Lines::file_answers))]
fn file_of(alloc: Global, matches: &ArgMatches<'_>) -> Result<WordText, WordsError>
    ensures { Gives Shape.OneFile one_file (rows_of (found_of matches.now)) result }
{
    let file = word_of(matches, "SPEC")?;
    Ok(WordText::of(alloc, file)?)
}

/// The files of one or more SPEC.
#[tactic(auto, using(crate::proofs::Lines::catalogue_answers))]
fn catalogue_of(alloc: Global, matches: &ArgMatches<'_>) -> Result<WordTexts, WordsError>
    requires { HasFewFiles (rows_of (found_of matches.now)) }
    ensures { Gives Shape.Catalogue catalogue (rows_of (found_of matches.now)) result }
{
    files_of(alloc, matches)
}

/// Whether the word is short enough for an expression.
fn is_expression(word: &str) -> bool
    ensures { IsTrue result ↔ (length word.now ≤ 2 ^ 31) }
{
    word.len() <= LONGEST_EXPRESSION
}

/// The expression and the files of EXPR and one or more SPEC.
#[tactic(auto, using(crate::proofs::Lines::expression_answers))]
fn expression_of(
    alloc: Global,
    matches: &ArgMatches<'_>,
) -> Result<(WordText, WordTexts), WordsError>
    requires { HasFewFiles (rows_of (found_of matches.now)) }
    ensures { Gives Shape.Expression (λ parts. expression parts.0 parts.1) (rows_of (found_of matches.now)) result }
{
    let expr = word_of(matches, "EXPR")?;
    if !is_expression(expr) {
        return Err(WordsError::Usage);
    }
    let expr = WordText::of(alloc, expr)?;
    let files = files_of(alloc, matches)?;
    Ok((expr, files))
}

/// The files of `OLD NEW`.
#[tactic(auto, using(crate::proofs::Lines::editions_answers))]
fn editions_of(alloc: Global, matches: &ArgMatches<'_>) -> Result<(WordText, WordText), WordsError>
    ensures { Gives Shape.Editions (λ parts. editions parts.0 parts.1) (rows_of (found_of matches.now)) result }
{
    let old = word_of(matches, "OLD")?;
    let new = word_of(matches, "NEW")?;
    let old = WordText::of(alloc, old)?;
    let new = WordText::of(alloc, new)?;
    Ok((old, new))
}

/// The files of `SPEC EXPANSION`.
#[tactic(auto, using(crate::proofs::Lines::expansion_answers))]
fn expansion_of(alloc: Global, matches: &ArgMatches<'_>) -> Result<(WordText, WordText), WordsError>
    ensures { Gives Shape.Expansion (λ parts. expansion parts.0 parts.1) (rows_of (found_of matches.now)) result }
{
    let spec = word_of(matches, "SPEC")?;
    let expansion = word_of(matches, "EXPANSION")?;
    let spec = WordText::of(alloc, spec)?;
    let expansion = WordText::of(alloc, expansion)?;
    Ok((spec, expansion))
}

/// The file and the numbers of `SPEC SEED COUNT`.
#[tactic(auto, using(crate::proofs::Lines::numbers_answers))]
fn numbers_of(alloc: Global, matches: &ArgMatches<'_>) -> Result<(WordText, u64, u32), WordsError>
    ensures { Gives Shape.Numbers (λ parts. numbers parts.0 parts.1 parts.2) (rows_of (found_of matches.now)) result }
{
    let file = word_of(matches, "SPEC")?;
    let Some(seed) = seed_of(word_of(matches, "SEED")?) else {
        return Err(WordsError::Usage);
    };
    let Some(count) = count_of(word_of(matches, "COUNT")?) else {
        return Err(WordsError::Usage);
    };
    let file = WordText::of(alloc, file)?;
    Ok((file, seed, count))
}

/// The line of a verb and its matches.
fn line_of(alloc: Global, verb: Verb, matches: &ArgMatches<'_>) -> Result<Line, WordsError>
    requires { HasFewFiles (rows_of (found_of matches.now)) }
    ensures { IsLineOf verb (rows_of (found_of matches.now)) result }
{
    match verb {
        Verb::Check => {
            let file = file_of(alloc, matches)?;
            Ok(Line::Check { file })
        }
        Verb::Canon => {
            let files = catalogue_of(alloc, matches)?;
            Ok(Line::Canon { files })
        }
        Verb::Show => {
            let files = catalogue_of(alloc, matches)?;
            Ok(Line::Show { files })
        }
        Verb::Text => {
            let files = catalogue_of(alloc, matches)?;
            Ok(Line::Text { files })
        }
        Verb::Build => {
            let files = catalogue_of(alloc, matches)?;
            Ok(Line::Build { files })
        }
        Verb::Filter => {
            let (expr, files) = expression_of(alloc, matches)?;
            Ok(Line::Filter { expr, files })
        }
        Verb::Migrate => {
            let (old, new) = editions_of(alloc, matches)?;
            Ok(Line::Migrate { old, new })
        }
        Verb::Trial => {
            let (file, seed, count) = numbers_of(alloc, matches)?;
            Ok(Line::Trial { file, seed, count })
        }
        Verb::Salvage => {
            let files = catalogue_of(alloc, matches)?;
            Ok(Line::Salvage { files })
        }
        Verb::Expand => {
            let (spec, expansion) = expansion_of(alloc, matches)?;
            Ok(Line::Expand { spec, expansion })
        }
        Verb::Convert => {
            let (old, new) = editions_of(alloc, matches)?;
            Ok(Line::Convert { old, new })
        }
    }
}

/// The line that clap finds in words without `-`.
fn parse(alloc: Global, words: &[String]) -> Result<Line, WordsError>
    requires plain { AllByRecursion IsPlain (map string_bytes words.now) }
    requires few { length words.now < 4294967296 }
    ensures { JudgesWords (map string_bytes words.now) result }
{
    let command = command(alloc)?;
    match command.try_get_matches_from(words) {
        Ok(matches) => match matches.subcommand() {
            Some((name, inner)) => match verb_named(name) {
                Some(verb) => line_of(alloc, verb, inner),
                None => Err(WordsError::Usage),
            },
            None => Err(WordsError::Usage),
        },
        Err(error) => match error.kind() {
            ErrorKind::OutOfMemory => Err(WordsError::OutOfMemory),
            _ => Err(WordsError::Usage),
        },
    }
}

/// Whether the text is that word.
fn is_word(text: &str, word: &str) -> bool
    ensures { IsTrue result ↔ (text.now ≡ word.now) }
{
    text == word
}

/// Whether the words are this one alone.
fn are_alone(words: &[String], word: &str) -> bool
    ensures { IsTrue result ↔ (map string_bytes words.now ≡ word.now ∷ []) }
{
    match words {
        [only] => is_word(only.as_str(), word),
        _ => false,
    }
}

/// What the words ask for: exactly the line of the one shape that they have. Usage comes exactly where they have none,
/// and OutOfMemory may come at any words.
#[tactic(auto, using(crate::proofs::Shapes::outside))]
pub fn read_words(alloc: Global, words: &[String]) -> Result<Line, WordsError>
    ensures { JudgesWords (map string_bytes words.now) result }
{
    if words.len() > u32::MAX as usize {
        return Err(WordsError::Usage);
    }
    if are_alone(words, "--help") {
        return Ok(Line::Help);
    }
    if are_alone(words, "--version") {
        return Ok(Line::Version);
    }
    if !are_plain(words) {
        return Err(WordsError::Usage);
    }
    parse(alloc, words)
}
