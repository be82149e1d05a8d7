//! The instruction of a line's tokens.
#![tactic(auto)]

mod lines;
mod search;

pub use lines::{LineFault, line};
