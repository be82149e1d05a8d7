//! What instruction a word is.
#![tactic(auto)]

mod word;

pub use word::decode;
