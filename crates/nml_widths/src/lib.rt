//! The value of each expression of a typed description fits its width: a law, and no code.
#![tactic(auto)]

mod laws;

pub use laws::widths;
