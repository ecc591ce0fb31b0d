//! The tests of the codec across crates: category files are read and accepted, and their blocks decoded, encoded and
//! copied, each body read by trees and by views alike; of relations of editions, and of blocks that are migrated by them, as trees
//! and as views; of numbers under other scales, and of blocks that are split. It holds nothing public.
#![tactic(auto)]

#[cfg(test)]
mod copying;
#[cfg(test)]
mod decoding;
#[cfg(test)]
mod edition_changes;
#[cfg(test)]
mod edition_fixtures;
#[cfg(test)]
mod edition_texts;
#[cfg(test)]
mod encoding;
#[cfg(test)]
mod fixtures;
#[cfg(test)]
mod migrated_blocks;
#[cfg(test)]
mod migrated_parts;
#[cfg(test)]
mod migrated_views;
#[cfg(test)]
mod ranges;
#[cfg(test)]
mod records;
#[cfg(test)]
mod relations;
#[cfg(test)]
mod rescaled_numbers;
#[cfg(test)]
mod rows;
#[cfg(test)]
mod seeing;
#[cfg(test)]
mod shown;
#[cfg(test)]
mod shown_specs;
#[cfg(test)]
mod split_blocks;
#[cfg(test)]
mod views;
