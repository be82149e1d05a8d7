//! A shape and the tokens of a line: the word of the instruction that has them.
#![tactic(auto)]

mod bits;
mod matching;

pub use matching::matched;
