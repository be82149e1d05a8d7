//! Whether the text of an attribute is right: its directives, its arguments and its characters.
#![tactic(auto)]

mod characters;
mod directive;
mod parameters;
mod piece;
mod text;
mod widths;

pub use parameters::Parameters;
pub use text::{Which, is_right};
pub use widths::Widths;
