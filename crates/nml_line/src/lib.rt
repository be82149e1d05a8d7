//! A line of assembly text as tokens.
#![tactic(auto)]

mod line;

pub use line::push_tokens;
