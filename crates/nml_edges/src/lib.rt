//! The first rule in whose syntax something touches, so that a number could not be told from its neighbour.
//!
//! What the texts of a rule may do is summed up in a fixed number of bits: for each thing that may stand before a text, what may stand
//! last behind it and whether something touches. The summaries are made upwards, of those of the rules that a rule names.
#![tactic(auto)]

mod edge;
mod glyph;
mod rule;
mod summary;
mod text;

pub use edge::first_edge;
