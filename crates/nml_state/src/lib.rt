//! The state of a machine: its cells and transitories with their types, and the writes that an instruction keeps for its end.
#![tactic(auto)]

mod lookup;
mod state;

pub use lookup::{find, natural_size, type_value};
pub use state::{Exec, State, wrapped_value};
