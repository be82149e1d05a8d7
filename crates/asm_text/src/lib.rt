//! What an assembly text comes to, what it is refused for, and the canonical text: definitions and laws.
#![tactic(auto)]

mod fault;
mod laws;

pub use fault::AsmFault;
pub use laws::{canonical, one_answer, round_trip, some_answer, storage_names};
