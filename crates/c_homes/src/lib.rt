//! What stands beside the statements: the homes of constants, bases and labels, and what cells hold at the start.
#![tactic(auto)]

mod homes;
mod label;
mod laws;
mod number;
mod part;
mod sum;
mod trap;

pub use homes::{homes_of, start_of};
pub use label::return_labels;
pub use laws::homes_stand_beside_statements;
pub use number::{most_nodes, push_numbers};
pub use trap::{goes_to_label, push_trap};
