//! Laws and worked examples of the crates below, which no crate stands on: what holds of their definitions whatever the code
//! does, and what these definitions compute. Each function stands for what its contract says; here stands no code. The laws of
//! the format itself stand in ax_model.
#![tactic(auto)]

pub mod answers;
pub mod block_reader;
pub mod build;
pub mod commands;
pub mod conversions;
pub mod convert;
pub mod edition_examples;
pub mod editions;
pub mod expand;
pub mod expand_examples;
pub mod expand_lines;
pub mod expand_lines_examples;
pub mod extent_examples;
pub mod filter;
pub mod filter_examples;
pub mod filtered_blocks;
pub mod fspec;
pub mod grammar;
pub mod honest;
pub mod limits;
pub mod line_stream;
pub mod line_stream_examples;
pub mod lines;
pub mod lines_examples;
pub mod load;
pub mod migrate;
pub mod migrate_examples;
pub mod migrate_views;
pub mod migrate_views_examples;
pub mod migrate_work;
pub mod migrate_work_examples;
pub mod nesting;
pub mod opaque_lines;
pub mod presence;
pub mod reader;
pub mod rescale;
pub mod rescale_examples;
pub mod rescaled_kinds;
pub mod rescaled_values;
pub mod salvage;
pub mod stream;
pub mod text;
pub mod text_examples;
pub mod tokens;
pub mod trial;
pub mod values;
pub mod vectors;
pub mod words;
pub mod words_examples;
