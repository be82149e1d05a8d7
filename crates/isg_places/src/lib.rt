//! The places that an action names, by the nodes of its effect.
#![tactic(auto)]

mod constant;
mod found;
mod jump;
mod pc;
mod place;
mod reads;
mod resolve;
mod spot;
mod term;
mod writes;

pub use constant::constant_at;
pub use jump::jump_field;
pub use place::{At, Place, Spot, Spots};
pub use reads::reads_of;
pub use resolve::cell;
pub use writes::writes_of;
