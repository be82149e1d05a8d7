//! The table of a description's shapes: what two of them have in common, the first two of many that have something in common, and the
//! numbers that a word has in the fields of a shape.
#![tactic(auto)]

mod agreed;
mod common;
mod image;
mod label;
mod listed;
mod numbers;
mod pair;
mod same;
mod syntax;
mod token;

pub use agreed::Agreement;
pub use image::overlap_image;
pub use listed::{ShapeFault, shapes};
pub use numbers::numbers_of;
pub use pair::{first_image_pair, first_syntax_pair};
pub use same::agreement;
pub use syntax::{overlap_syntax, tokens_text};
