//! A simulator of any checked description: the machine that runs the words of an image, step by step.
#![tactic(auto)]

mod laws;
mod simulator;
mod step;

pub use laws::{ended_run, longer_run};
pub use simulator::Sim;
pub use step::Step;
