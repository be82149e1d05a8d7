//! Expressions and statements of a description, and its single symbols, from symbols.
#![tactic(auto)]

mod beginning;
mod expression;
mod front;
mod operator;
mod start;
mod statement;

pub use expression::whole;
pub use front::{name, number, size, string};
pub use statement::statements;
