//! The assembler.
#![tactic(auto)]

mod tool;
mod words;

pub use tool::assemble;
