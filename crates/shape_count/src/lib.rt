//! How many shapes a description has, how many nodes a derivation has at most, and how long an action written out is at most.
#![tactic(auto)]

mod best;
mod count;
mod counts;
mod key;
mod pars;
mod root;
mod rules;
mod scope;
mod size;
mod summary;
mod tally;

pub use counts::{Counts, count_shapes};
