//! Tests of what is read: sources, sinks and libraries of files, in memory and over real files; inputs block by block or line by
//! line, however their sources cut them and fail, and a line command over them; texts as tokens and as category files; filter
//! expressions over a catalogue, and the records that they hold of; and the words of a command line. The crate has nothing else.
#![tactic(auto)]

#[cfg(test)]
mod blocks;
#[cfg(test)]
mod category_files;
#[cfg(test)]
mod checks;
#[cfg(test)]
mod command_lines;
#[cfg(test)]
mod expressions;
#[cfg(test)]
mod filter_fixtures;
#[cfg(test)]
mod filtered_records;
#[cfg(test)]
mod folder_library;
#[cfg(test)]
mod lexing;
#[cfg(test)]
mod line_runs;
#[cfg(test)]
mod lines;
#[cfg(test)]
mod memory_library;
#[cfg(test)]
mod memory_sink;
#[cfg(test)]
mod memory_source;
#[cfg(test)]
mod operators;
#[cfg(test)]
mod outside;
#[cfg(test)]
mod read_source;
#[cfg(test)]
mod whole;
#[cfg(test)]
mod write_sink;
