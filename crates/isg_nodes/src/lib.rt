//! The graph of a description: actions written out as nodes by number, each node over older ones, equal ones shared.
#![tactic(auto)]

mod fields;
mod grow;
mod key;
mod node;
mod value;

pub use fields::Fields;
pub use grow::add;
pub use key::Key;
pub use node::{Node, Numbers};
pub use value::{node_at, value_at};
