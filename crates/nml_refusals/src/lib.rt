//! Laws of the faults of descriptions: each tree has one at most, and one that has none is accepted and summed up in one way.
#![tactic(auto)]

mod laws;

pub use laws::{one_fault, one_summary, some_fault, some_summary};
