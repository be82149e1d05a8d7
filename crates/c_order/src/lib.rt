//! Numbers in rising order, each once, and numbers of n bits.
#![tactic(auto)]

mod laws;
mod number;
mod order;

pub use laws::order_is_given_by_members;
pub use number::{label_value, wrapped};
pub use order::in_order;
