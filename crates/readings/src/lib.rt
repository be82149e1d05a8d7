//! Readings of a language from a list of symbols: how they are put together, and what they owe to what they read.
//!
//! The definitions and laws stand in specs/ and proofs/; specs/Lib.antt says how the reading of a language is made of them.
#![tactic(auto)]

mod front;
mod sign;
mod stop;

pub use front::{behind, mark};
pub use sign::Sign;
pub use stop::Stop;
