//! Runs of accepted programs of the C subset.
#![tactic(auto)]

mod run;
mod start;

pub use run::eval;
