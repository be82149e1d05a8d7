//! What the statements of a program promise.
#![tactic(auto)]

mod law;

pub use law::{label_once, no_shift_is_too_wide, run_lax, statements_keep_their_promises};
