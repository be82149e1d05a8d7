//! What the fixed bits and the tokens of shapes say of instructions: laws, and no code.
#![tactic(auto)]

mod laws;

pub use laws::{texts, words};
