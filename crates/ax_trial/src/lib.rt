//! What `trial` writes: the numbers of data blocks made from a category file and a seed, and of their canonical forms.
#![tactic(auto)]

mod block;
mod totals;
mod trial;

pub use trial::trial_text;
