//! Expressions of a program, from symbols.
#![tactic(auto)]

mod beginning;
mod expression;
mod operator;

pub use expression::whole;
