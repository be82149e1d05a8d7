//! The lines of an assembly text, its labels, the tokens of its instructions, and how many words it is.
#![tactic(auto)]

mod count;
mod first;
mod labels;
mod lines;
mod tokens;

pub use count::word_count;
pub use labels::{Labels, labels_of};
pub use lines::read_lines;
pub use tokens::resolve;
