//! What names mean at a place of a program's text, kept while a walk goes through it.
#![tactic(auto)]

mod begin;
mod scopes;

pub use begin::{count_of, first_scopes, is_main};
pub use scopes::Scopes;
