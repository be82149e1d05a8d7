//! Whether a number is one of a type.
#![tactic(auto)]

mod range;

pub use range::is_in_range;
