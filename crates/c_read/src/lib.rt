//! The tree of a program's tokens.
#![tactic(auto)]

mod function;
mod item;
mod program;
mod sign;
mod variables;

pub use program::read;
