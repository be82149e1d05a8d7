//! What each pass over the rules of a description needs that goes from the rules that name no other upwards.
#![tactic(auto)]

mod laws;
mod piece;

pub use laws::each_rule_has_a_derivation;
pub use piece::{Element, next_piece};
