//! Statements over trees, their bounded runs, and what it is for bounded runs to agree.
#![tactic(auto)]

mod begin;
mod ir;
mod laws;
mod machine;
mod marks;
mod number;
mod running;
mod statement;
mod tree;

pub use ir::{Homes, Ir};
pub use laws::{
    agreement_composes, agreement_from_one_half, agreement_from_simulation, agreement_is_reflexive,
    agreement_is_symmetric, longer_runs_go_on,
};
pub use running::run;
pub use statement::Stmt;
pub use tree::Tree;
