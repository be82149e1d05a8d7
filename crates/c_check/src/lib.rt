//! Which programs are accepted, and why others are refused.
#![tactic(auto)]

mod accept;
mod declaration;
mod expression;
mod global;
mod laws;
mod note;
mod numbers;
mod statement;

pub use accept::check;
pub use laws::{accepted_has_none, has_one_fault, some_fault};
