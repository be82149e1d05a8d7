//! What a program is made of: its nodes, what is counted of them, its global variables and its functions.
#![tactic(auto)]

mod laws;
mod plan;
mod routine;

pub use laws::{cells_without_names, count_without_names, lowered_without_names};
pub use plan::{Plan, plan_of};
pub use routine::Routine;
