//! What operators do to numbers of so many bits, and how numbers are compared.
#![tactic(auto)]

mod operator;
mod relation;

pub use operator::{Arith, Prefix, Shift, arithmetic, holds, prefixed, shifted};
pub use relation::Rel;
