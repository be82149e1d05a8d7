//! A program as statements.
#![tactic(auto)]

mod arrays;
mod frames;
mod ground;
mod program;
mod room;
mod values;
mod written;

pub use program::lower;
