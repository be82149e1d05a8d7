//! The width of the numbers that programs compute with on a described machine.
#![tactic(auto)]

mod width;

pub use width::{Lacking, target};
