//! The words of a call, told apart.
#![tactic(auto)]

mod command;

pub use command::{Command, command_of};
