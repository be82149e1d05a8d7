//! What the names of a description are declared as: numbers, types, storages, ports and rules.
#![tactic(auto)]

mod front;
mod known;
mod names;

pub use known::{Known, Parameter};
pub use names::Names;
