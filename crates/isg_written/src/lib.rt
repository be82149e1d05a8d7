//! The actions of a description's instructions written out as nodes: names resolved, each part's action and each mode's value in its place.
#![tactic(auto)]

mod declared;
mod effect;
mod expression;
mod found;
mod front;
mod numbered;
mod pars;
mod place;
mod skip;
mod statement;
mod turn;

pub use effect::effect_of;
pub use numbered::Numbered;
