//! What a program declares, read off its tree: its global variables, and its functions with their variables.
#![tactic(auto)]

mod bodies;
mod functions;
mod variables;

pub use functions::{Declared, functions_of};
pub use variables::{Variable, variables_of};
