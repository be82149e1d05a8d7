//! The initial values that the `.data` lines of an assembly text give.
#![tactic(auto)]

mod cells;
mod storages;
mod values;

pub use cells::data_cells;
