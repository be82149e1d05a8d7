//! The names of a description: where each is declared, whether each is known, which rules reach which, and what is declared at all.
#![tactic(auto)]

mod below;
mod cycle;
mod item;
mod linear;
mod name_fault;
mod names;
mod noting;
mod parameters;
mod root;
mod scope;
mod tally;
mod used;
mod used_stmt;

pub use cycle::{first_cycle, rule_order};
pub use linear::first_unlinear;
pub use name_fault::first_name_fault;
pub use names::{Declaration, declarations, declared_name, size_number};
pub use noting::{earlier, note};
pub use root::first_lack;
