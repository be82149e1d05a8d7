//! The first function of a program that reaches itself by calls.
#![tactic(auto)]

mod guess;
mod rank;
mod reach;
mod search;

pub use search::first_cycle;
