//! Shapes: what all instructions with one list of picks have in common, as bits and as tokens.
#![tactic(auto)]

mod shape;

pub use shape::{FieldAt, Inst, Piece, Shape};
