//! The tree of a description's tokens.
#![tactic(auto)]

mod attributes;
mod description;
mod float;
mod item;
mod parameters;
mod rules;
mod sign;
mod types;

pub use description::read;
