//! How a run ends.
ghost use Rattle.std.specs.Prelude.{◌≡◌};
ghost use Rattle.ax_command.specs.Outcomes.{outcome_of_stop, outcome_of_end, outcome_of_lines, outcome_of_job_stop};
ghost use Rattle.ax_command.specs.Status.{status_of};
ghost use Rattle.ax_command.specs.declared.outcome.JobStop.TheVariants as JobStopOf;

use ax_blocks::{InputFault, StreamEnd};
use ax_expressions::FilterFault;
use ax_lines::{LinesEnd, TextFault};
use ax_load::{LoadStop, SpecFault};
use std::alloc::AllocError;

/// How a run ends.
pub enum Outcome {
    /// The input, where the command reads it, was read to its end, and the whole result was written. `blocks` counts the blocks
    /// that were taken, or by `build` and `trial` made; it is 0 of a command without any.
    Done { blocks: u64 },
    /// The words have no shape that the program knows.
    Usage,
    /// A category file or an expansion file, numbered from 0 in the order of the words, is refused.
    SpecRefused { file: u32, fault: SpecFault },
    /// An earlier file has the category of that one, which is numbered from 0 in the order of the words.
    CategoryTwice { file: u32, category: u8 },
    /// The expression of `filter` is refused.
    FilterRefused { fault: FilterFault },
    /// The two editions, or the category file and the expansion file, are of these two categories, which differ.
    OtherCategory { old: u8, new: u8 },
    /// The user application profile of that category has no item RE of kind explicit, so that an expansion file has no use.
    ExpansionUnused { category: u8 },
    /// The input has a fault.
    InputRefused { fault: InputFault },
    /// That line of the input, numbered from 0, is too long, no block's text, or the text of a block that is too long.
    TextRefused { line: u64, fault: TextFault },
    /// A record of that block, migrated, gives alone a data block of that many octets, more than one can have.
    MigratedTooLong { block: u64, octets: u32 },
    /// The input has more than 2^40 octets.
    InputTooLong,
    /// A category file or an expansion file, numbered from 0 in the order of the words, could not be loaded.
    LoadFault { file: u32 },
    /// The input could not be read.
    ReadFault,
    /// The output could not be written.
    WriteFault,
    /// A line of a block, or a count of `salvage`, could not be written to the report.
    ReportFault,
    /// Want of memory.
    OutOfMemory,
}

impl Drop for Outcome {
    fn drop(self) {
        match self {
            Outcome::Done { blocks: _blocks } => {}
            Outcome::Usage => {}
            Outcome::SpecRefused {
                file: _file,
                fault: _fault,
            } => {}
            Outcome::CategoryTwice {
                file: _file,
                category: _category,
            } => {}
            Outcome::FilterRefused { fault: _fault } => {}
            Outcome::OtherCategory {
                old: _old,
                new: _new,
            } => {}
            Outcome::ExpansionUnused {
                category: _category,
            } => {}
            Outcome::InputRefused { fault: _fault } => {}
            Outcome::TextRefused {
                line: _line,
                fault: _fault,
            } => {}
            Outcome::MigratedTooLong {
                block: _block,
                octets: _octets,
            } => {}
            Outcome::InputTooLong => {}
            Outcome::LoadFault { file: _file } => {}
            Outcome::ReadFault => {}
            Outcome::WriteFault => {}
            Outcome::ReportFault => {}
            Outcome::OutOfMemory => {}
        }
    }
}

/// Why a command refuses its arguments or what its files have in common, before it reads its input.
#[derive(Clone, Copy)]
pub enum Refusal {
    /// The expression of `filter` has that fault.
    FilterRefused { fault: FilterFault },
    /// The two editions, or the category file and the expansion file, are of these two categories, which differ.
    OtherCategory { old: u8, new: u8 },
    /// The user application profile of that category has no item RE of kind explicit.
    ExpansionUnused { category: u8 },
}

/// Why a command doesn't come to its input.
#[derive(Clone, Copy)]
pub enum JobStop {
    /// The command refuses what it is asked to do.
    Refused(Refusal),
    /// No memory was left, and nothing was taken or written.
    OutOfMemory,
}

impl From<AllocError> for JobStop {
    ghost from_gives = { λ _ stop. stop ≡ JobStopOf.OutOfMemory };

    fn from(_error: AllocError) -> Self {
        JobStop::OutOfMemory
    }
}

impl From<JobStop> for Outcome {
    ghost from_gives = { λ stop outcome. outcome ≡ outcome_of_job_stop stop };

    fn from(stop: JobStop) -> Self {
        match stop {
            JobStop::Refused(Refusal::FilterRefused { fault }) => Outcome::FilterRefused { fault },
            JobStop::Refused(Refusal::OtherCategory { old, new }) => {
                Outcome::OtherCategory { old, new }
            }
            JobStop::Refused(Refusal::ExpansionUnused { category }) => {
                Outcome::ExpansionUnused { category }
            }
            JobStop::OutOfMemory => Outcome::OutOfMemory,
        }
    }
}

impl From<LoadStop> for Outcome {
    ghost from_gives = { λ stop outcome. outcome ≡ outcome_of_stop stop };

    fn from(stop: LoadStop) -> Self {
        match stop {
            LoadStop::SpecRefused { file, fault } => Outcome::SpecRefused { file, fault },
            LoadStop::CategoryTwice { file, category } => Outcome::CategoryTwice { file, category },
            LoadStop::LoadFault { file } => Outcome::LoadFault { file },
            LoadStop::OutOfMemory => Outcome::OutOfMemory,
        }
    }
}

impl From<StreamEnd> for Outcome {
    ghost from_gives = { λ end outcome. outcome ≡ outcome_of_end end };

    fn from(end: StreamEnd) -> Self {
        match end {
            StreamEnd::Done { blocks } => Outcome::Done { blocks },
            StreamEnd::Refused { fault } => Outcome::InputRefused { fault },
            StreamEnd::InputTooLong => Outcome::InputTooLong,
            StreamEnd::TooLong { block, octets } => Outcome::MigratedTooLong { block, octets },
            StreamEnd::ReadFault => Outcome::ReadFault,
            StreamEnd::WriteFault => Outcome::WriteFault,
            StreamEnd::ReportFault => Outcome::ReportFault,
            StreamEnd::OutOfMemory => Outcome::OutOfMemory,
        }
    }
}

impl From<LinesEnd<TextFault>> for Outcome {
    ghost from_gives = { λ end outcome. outcome ≡ outcome_of_lines end };

    fn from(end: LinesEnd<TextFault>) -> Self {
        match end {
            LinesEnd::Done { results } => Outcome::Done { blocks: results },
            LinesEnd::Refused { line, fault } => Outcome::TextRefused { line, fault },
            LinesEnd::LineTooLong { line } => {
                let fault = TextFault::LineTooLong;
                Outcome::TextRefused { line, fault }
            }
            LinesEnd::InputTooLong => Outcome::InputTooLong,
            LinesEnd::ReadFault => Outcome::ReadFault,
            LinesEnd::WriteFault => Outcome::WriteFault,
            LinesEnd::OutOfMemory => Outcome::OutOfMemory,
        }
    }
}

impl Outcome {
    /// The exit status: 0 for Done, 1 for faulty words, 2 for a refused file or expression, for two files of different
    /// categories and for an expansion file without use, 3 for a refused input, 4 for a fault of the outside, 5 for want of
    /// memory. Takes no memory.
    pub fn status(&self) -> u8
        ensures { result ≡ status_of self.now }
    {
        match self {
            Outcome::Done { .. } => 0,
            Outcome::Usage => 1,
            Outcome::SpecRefused { .. }
            | Outcome::CategoryTwice { .. }
            | Outcome::FilterRefused { .. }
            | Outcome::OtherCategory { .. }
            | Outcome::ExpansionUnused { .. } => 2,
            Outcome::InputRefused { .. }
            | Outcome::TextRefused { .. }
            | Outcome::MigratedTooLong { .. }
            | Outcome::InputTooLong => 3,
            Outcome::LoadFault { .. }
            | Outcome::ReadFault
            | Outcome::WriteFault
            | Outcome::ReportFault => 4,
            Outcome::OutOfMemory => 5,
        }
    }
}
