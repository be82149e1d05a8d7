//! Whether an instruction is legal, by the nodes of its effect: on no path does something happen twice that may happen once.
#![tactic(auto)]

mod index;
mod key;
mod legality;
mod tally;

pub use legality::{clashes, lawful_is_legal, never_clashes};
