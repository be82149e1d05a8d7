//! Shapes found by their masks, and by the first token and the number of tokens of their lines.
#![tactic(auto)]

mod group;
mod laws;
mod lines;
mod masks;

pub use laws::values_rise;
pub use lines::{Lines, lines_of};
pub use masks::{Masks, masks_of};
