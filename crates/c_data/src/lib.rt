//! How many cells the statements of a program have, counted without the statements.
#![tactic(auto)]

mod constants;
mod count;
mod functions;
mod lengths;
mod variables;

pub use count::{cells_of, count_cells};
