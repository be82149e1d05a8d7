//! The shapes of a description, in order.
#![tactic(auto)]

mod chosen;
mod fixed;
mod picks;
mod rule;
mod shape;
mod sketch;
mod text;

pub use picks::all_picks;
pub use shape::{all_shapes, common_syntax};
pub use text::Glyph;
