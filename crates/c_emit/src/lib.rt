//! The statements of commands and of functions.
#![tactic(auto)]

mod command;
mod function;
mod read;
mod simple;
mod spot;

pub use command::push_command;
pub use function::push_function;
pub use spot::{Ends, Leaving};
