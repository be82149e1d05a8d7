//! How wide the images of a description's rules are, and whether each instruction is one word.
#![tactic(auto)]

mod first;
mod pars;
mod rules;
mod span;
mod text;

pub use first::first_word_fault;
