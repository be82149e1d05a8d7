//! The input of a description: its type, and that the numbers of an input's lines are of it.
#![tactic(auto)]

mod laws;
mod port;

pub use laws::input_fits;
pub use port::input_type;
