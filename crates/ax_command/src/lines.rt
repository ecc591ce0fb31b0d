//! The lines of the report for an outcome. They are written in pieces and take no memory.
ghost use Rattle.std.specs.Prelude.{◌≡◌, ◌++◌, codes};
ghost use Rattle.ax_endpoints.specs.Changes.{Wrote, sink_change};
ghost use Rattle.ax_format.specs.Paths.{three_digits};
ghost use Rattle.ax_command.specs.Lines.{kind_name, flaw_end, flaw_line, flaw_lines, fault_lines, filter_line, text_line, lines_of};

use crate::outcome::Outcome;
use ax_blocks::write_fault_line;
use ax_endpoints::{Sink, SinkFailed, write_text};
use ax_expressions::FilterFault;
use ax_format::{Flaw, FlawKind, Flaws, Text, category_digits};
use ax_lines::TextFault;
use ax_load::SpecFault;
use ax_report::{write_numbered, write_numbered_text, write_three, write_two, write_two_numbers};

fn kind_text(kind: FlawKind) -> &'static [u8]
    ensures { result.now ≡ kind_name kind }
{
    match kind {
        FlawKind::DuplicateItem => b"DuplicateItem",
        FlawKind::DuplicateName => b"DuplicateName",
        FlawKind::UnknownInUap => b"UnknownInUap",
        FlawKind::RepeatedInUap => b"RepeatedInUap",
        FlawKind::Empty => b"Empty",
        FlawKind::TooManySlots => b"TooManySlots",
        FlawKind::BadWidth => b"BadWidth",
        FlawKind::NotOctets => b"NotOctets",
        FlawKind::PartNotOctets => b"PartNotOctets",
        FlawKind::BodyNotOctets => b"BodyNotOctets",
        FlawKind::BadScale => b"BadScale",
        FlawKind::BadStringWidth => b"BadStringWidth",
        FlawKind::TooWide => b"TooWide",
    }
}

/// Writes a space and the kind of a flaw.
fn write_kind<K: Sink>(sink: &mut K, kind: FlawKind) -> Result<(), SinkFailed>
    ensures { Wrote (sink_change K.Sink sink.old sink.new) result (codes " " ++ kind_name kind) }
{
    write_two(sink, b" ", kind_text(kind))
}

/// Writes a space and the path of a flaw, up to the end of its line.
fn write_path<K: Sink>(sink: &mut K, path: &Text) -> Result<(), SinkFailed>
    ensures { Wrote (sink_change K.Sink sink.old sink.new) result (codes " " ++ (path.now ++ codes "\n")) }
{
    write_three(sink, b" ", path.as_slice(), b"\n")
}

/// Writes the kind and the path of a flaw, up to the end of its line.
#[tactic(auto, using(ax_endpoints::proofs::Pieces::pieces))]
fn write_flaw_end<K: Sink>(sink: &mut K, flaw: &Flaw) -> Result<(), SinkFailed>
    ensures { Wrote (sink_change K.Sink sink.old sink.new) result (flaw_end flaw.now) }
{
    write_kind(sink, flaw.kind)?;
    write_path(sink, &flaw.path)
}

/// Writes the line of a flaw.
#[tactic(auto, using(ax_endpoints::proofs::Pieces::pieces))]
fn write_flaw<K: Sink>(sink: &mut K, file: u32, flaw: &Flaw) -> Result<(), SinkFailed>
    ensures { Wrote (sink_change K.Sink sink.old sink.new) result (flaw_line file flaw.now) }
{
    write_numbered(sink, b"flaw file ", file as u64)?;
    write_flaw_end(sink, flaw)
}

/// Writes the category of a file, up to the end of its line.
fn write_category<K: Sink>(sink: &mut K, category: u8) -> Result<(), SinkFailed>
    ensures { Wrote (sink_change K.Sink sink.old sink.new) result (codes " CategoryTwice " ++ (three_digits category ++ codes "\n")) }
{
    write_three(sink, b" CategoryTwice ", &category_digits(category), b"\n")
}

/// Writes the line of a file whose category an earlier file has.
#[tactic(auto, using(ax_endpoints::proofs::Pieces::pieces))]
fn write_category_twice<K: Sink>(sink: &mut K, file: u32, category: u8) -> Result<(), SinkFailed>
    ensures { Wrote (sink_change K.Sink sink.old sink.new) result (lines_of (Outcome.CategoryTwice file category)) }
{
    write_numbered(sink, b"refused file ", file as u64)?;
    write_category(sink, category)
}

/// Two categories and the end of a line, a space before each category.
fn two_categories(old: u8, new: u8) -> [u8; 9]
    ensures { result ≡ codes " " ++ (three_digits old ++ (codes " " ++ (three_digits new ++ codes "\n"))) }
{
    let [a, b, c] = category_digits(old);
    let [x, y, z] = category_digits(new);
    [b' ', a, b, c, b' ', x, y, z, b'\n']
}

/// Writes the line of two editions whose categories differ.
fn write_editions<K: Sink>(sink: &mut K, old: u8, new: u8) -> Result<(), SinkFailed>
    ensures { Wrote (sink_change K.Sink sink.old sink.new) result (lines_of (Outcome.OtherCategory old new)) }
{
    write_two(sink, b"refused editions", &two_categories(old, new))
}

/// Writes the line of an expansion file without use.
fn write_unused<K: Sink>(sink: &mut K, category: u8) -> Result<(), SinkFailed>
    ensures { Wrote (sink_change K.Sink sink.old sink.new) result (lines_of (Outcome.ExpansionUnused category)) }
{
    write_three(
        sink,
        b"refused expansion ",
        &category_digits(category),
        b"\n",
    )
}

/// Writes the line of a refused expression.
fn write_filter_fault<K: Sink>(sink: &mut K, fault: FilterFault) -> Result<(), SinkFailed>
    ensures { Wrote (sink_change K.Sink sink.old sink.new) result (filter_line fault) }
{
    match fault {
        FilterFault::BadByte { at } => write_numbered_text(
            sink,
            b"refused filter BadByte at ",
            at as u64,
            b"\n",
        ),
        FilterFault::TooDeep { token } => write_numbered_text(
            sink,
            b"refused filter TooDeep token ",
            token as u64,
            b"\n",
        ),
        FilterFault::BadToken { token } => write_numbered_text(
            sink,
            b"refused filter BadToken token ",
            token as u64,
            b"\n",
        ),
        FilterFault::UnknownPath { token } => write_numbered_text(
            sink,
            b"refused filter UnknownPath token ",
            token as u64,
            b"\n",
        ),
        FilterFault::NotAnElement { token } => write_numbered_text(
            sink,
            b"refused filter NotAnElement token ",
            token as u64,
            b"\n",
        ),
    }
}

/// Writes the line of a refused line of the input.
fn write_text_fault<K: Sink>(sink: &mut K, line: u64, fault: TextFault) -> Result<(), SinkFailed>
    ensures { Wrote (sink_change K.Sink sink.old sink.new) result (text_line line fault) }
{
    match fault {
        TextFault::LineTooLong => write_numbered_text(
            sink,
            b"refused line ",
            line,
            b" LineTooLong\n",
        ),
        TextFault::BadByte { at } => write_two_numbers(
            sink,
            b"refused line ",
            line,
            b" BadByte at ",
            at as u64,
        ),
        TextFault::TooDeep { token } => write_two_numbers(
            sink,
            b"refused line ",
            line,
            b" TooDeep token ",
            token as u64,
        ),
        TextFault::BadToken { token } => write_two_numbers(
            sink,
            b"refused line ",
            line,
            b" BadToken token ",
            token as u64,
        ),
        TextFault::TooLong { octets } => write_two_numbers(
            sink,
            b"refused line ",
            line,
            b" TooLong ",
            octets,
        ),
    }
}

/// Writes the lines of the flaws of a file.
#[tactic(auto, using(crate::proofs::FlawLines::flaws_written))]
fn write_flaws<K: Sink>(sink: &mut K, file: u32, flaws: &[Flaw]) -> Result<(), SinkFailed>
    ensures { Wrote (sink_change K.Sink sink.old sink.new) result (flaw_lines file flaws.now) }
{
    for flaw in flaws {
        write_flaw(sink, file, flaw)?;
    }
    Ok(())
}

/// Writes the lines of a refused file.
#[tactic(auto, using(ax_endpoints::proofs::Pieces::pieces))]
fn write_refused_file<K: Sink>(sink: &mut K, file: u32, fault: &SpecFault) -> Result<(), SinkFailed>
    ensures { Wrote (sink_change K.Sink sink.old sink.new) result (fault_lines file fault.now) }
{
    match fault {
        SpecFault::TooLarge => write_numbered_text(
            sink,
            b"refused file ",
            file as u64,
            b" TooLarge\n",
        ),
        SpecFault::BadByte { at } => write_two_numbers(
            sink,
            b"refused file ",
            file as u64,
            b" BadByte at ",
            *at as u64,
        ),
        SpecFault::TooDeep { token } => write_two_numbers(
            sink,
            b"refused file ",
            file as u64,
            b" TooDeep token ",
            *token as u64,
        ),
        SpecFault::BadToken { token } => write_two_numbers(
            sink,
            b"refused file ",
            file as u64,
            b" BadToken token ",
            *token as u64,
        ),
        SpecFault::Flawed { flaws } => write_flawed(sink, file, flaws),
    }
}

/// Writes the lines of a file with flaws.
#[tactic(auto, using(ax_endpoints::proofs::Pieces::pieces))]
fn write_flawed<K: Sink>(sink: &mut K, file: u32, flaws: &Flaws) -> Result<(), SinkFailed>
    ensures { Wrote (sink_change K.Sink sink.old sink.new) result (fault_lines file (SpecFault.Flawed flaws.now)) }
{
    write_flaws(sink, file, flaws.as_slice())?;
    write_two_numbers(
        sink,
        b"refused file ",
        file as u64,
        b" Flawed ",
        flaws.count() as u64,
    )
}

/// Writes the lines of an outcome.
#[tactic(auto, using(ax_endpoints::proofs::Pieces::pieces))]
pub fn write_lines<K: Sink>(sink: &mut K, outcome: &Outcome) -> Result<(), SinkFailed>
    ensures { Wrote (sink_change K.Sink sink.old sink.new) result (lines_of outcome.now) }
{
    match outcome {
        Outcome::Done { .. } => Ok(()),
        Outcome::Usage => write_text(sink, b"refused usage\n"),
        Outcome::SpecRefused { file, fault } => write_refused_file(sink, *file, fault),
        Outcome::CategoryTwice { file, category } => write_category_twice(sink, *file, *category),
        Outcome::InputRefused { fault } => write_fault_line(sink, *fault),
        Outcome::TextRefused { line, fault } => write_text_fault(sink, *line, *fault),
        Outcome::MigratedTooLong { block, octets } => write_two_numbers(
            sink,
            b"refused block ",
            *block,
            b" MigratedTooLong ",
            *octets as u64,
        ),
        Outcome::InputTooLong => write_text(sink, b"refused input InputTooLong\n"),
        Outcome::LoadFault { file } => write_numbered_text(
            sink,
            b"fault file ",
            *file as u64,
            b"\n",
        ),
        Outcome::ReadFault => write_text(sink, b"fault read\n"),
        Outcome::WriteFault => write_text(sink, b"fault write\n"),
        Outcome::ReportFault => Ok(()),
        Outcome::OutOfMemory => write_text(sink, b"refused memory\n"),
        Outcome::OtherCategory { old, new } => write_editions(sink, *old, *new),
        Outcome::ExpansionUnused { category } => write_unused(sink, *category),
        Outcome::FilterRefused { fault } => write_filter_fault(sink, *fault),
    }
}
