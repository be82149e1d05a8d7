//! How many step cells and labels the statements of each node of a program have.
#![tactic(auto)]

mod command;
mod count;
mod part;
mod size;
mod term;

pub use count::count_nodes;
pub use part::{arguments_size_of, command_size_of, term_size_of};
pub use size::{CommandSize, Size, TermSize, TermsSize};
