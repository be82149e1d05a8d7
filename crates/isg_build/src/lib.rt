//! The graph of a checked description, built.
#![tactic(auto)]

mod actions;
mod kept;
mod whole;
mod widths;

pub use whole::build;
