//! Tests of the call `run` over files, an input and outputs in memory, and of the block loop below it; of category files that
//! are loaded by name, of what a user reads of each outcome, of what `trial` writes, of the tallies of `salvage`, of the
//! lines of `expand`, and of the blocks that `convert` writes. The crate has nothing else.
#![tactic(auto)]

#[cfg(test)]
mod building;
#[cfg(test)]
mod canon;
#[cfg(test)]
mod categories;
#[cfg(test)]
mod checking;
#[cfg(test)]
mod checks;
#[cfg(test)]
mod conversions;
#[cfg(test)]
mod converting;
#[cfg(test)]
mod driving;
#[cfg(test)]
mod each_call;
#[cfg(test)]
mod expanding;
#[cfg(test)]
mod expansions;
#[cfg(test)]
mod filtering;
#[cfg(test)]
mod kinds;
#[cfg(test)]
mod loading;
#[cfg(test)]
mod migrating;
#[cfg(test)]
mod outcomes;
#[cfg(test)]
mod outside;
#[cfg(test)]
mod repeated;
#[cfg(test)]
mod salvaging;
#[cfg(test)]
mod specs;
#[cfg(test)]
mod texts;
#[cfg(test)]
mod trials;
#[cfg(test)]
mod wording;
#[cfg(test)]
mod world;
