//! The statements of a program and its meaning agree.
#![tactic(auto)]

mod law;

pub use law::{no_run_breaks_a_promise, statements_agree_with_the_program};
