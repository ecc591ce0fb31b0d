//! Tests of the crates that the format is written in: bits and outputs, lists, presence fields, the values, copies and paths of
//! a specification, its flaws and its places, and the catalogue; expansion files and the contents read by them; and of blocks as text: printed, listed, and read again under a
//! catalogue. The crate has nothing else.
#![tactic(auto)]

#[cfg(test)]
mod bad_tokens;
#[cfg(test)]
mod bits;
#[cfg(test)]
mod catalogue;
#[cfg(test)]
mod checks;
#[cfg(test)]
mod contents;
#[cfg(test)]
mod expansions;
#[cfg(test)]
mod fitting;
#[cfg(test)]
mod flawless;
#[cfg(test)]
mod flaws;
#[cfg(test)]
mod listings;
#[cfg(test)]
mod lists;
#[cfg(test)]
mod long_texts;
#[cfg(test)]
mod paths;
#[cfg(test)]
mod places;
#[cfg(test)]
mod presence;
#[cfg(test)]
mod samples;
#[cfg(test)]
mod text_catalogues;
#[cfg(test)]
mod text_fixtures;
#[cfg(test)]
mod text_lines;
#[cfg(test)]
mod texts;
#[cfg(test)]
mod texts_back;
#[cfg(test)]
mod texts_read;
