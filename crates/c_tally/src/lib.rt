//! What of a lowering's statements is counted of each node of a program (the nodes of the largest, and the calls), and the
//! numbers that stand in them.
#![tactic(auto)]

mod command;
mod count;
mod number;
mod part;
mod put;
mod read;
mod tally;
mod term;

pub use count::tally_nodes;
pub use part::command_tally_of;
pub use put::push_numbers;
pub use tally::{ArgumentsTally, CommandTally, Tally, TermTally};
