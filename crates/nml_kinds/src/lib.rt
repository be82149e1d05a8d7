//! The first place at which a description has a fault of kind, and the first at which it has one of width.
#![tactic(auto)]

mod alternative;
mod declared;
mod faults;
mod item;
mod rule;
mod statement;
mod storage;
mod test;
mod ty;

pub use faults::{Faults, first_faults};
