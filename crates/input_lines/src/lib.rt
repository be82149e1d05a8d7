//! The numbers that the lines of an input write.
#![tactic(auto)]

mod first;
mod line;
mod numbers;

pub use numbers::{InputFault, numbers_of};
