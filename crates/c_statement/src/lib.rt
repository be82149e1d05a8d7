//! Statements of a program, its blocks, and its single symbols, from symbols.
#![tactic(auto)]

mod act;
mod call;
mod closed;
mod declaration;
mod front;
mod header;
mod start;
mod statement;

pub use front::{fixed, name, number, type_word};
pub use statement::block;
