//! The grammar of descriptions: how symbols are read, and that they spell one description or none.
//!
//! These are definitions and laws alone; `nml_read` has the functions that read.
#![tactic(auto)]

mod law;

pub use law::{one_block, one_expression, one_reading, one_tree, some_reading};
