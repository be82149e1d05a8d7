//! What an instruction does, by the nodes of its effect.
#![tactic(auto)]

mod effect;
mod statement;

pub use effect::apply;
