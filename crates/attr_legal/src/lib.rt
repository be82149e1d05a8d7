//! Whether a derivation is legal: on no path through its action does something happen twice that may happen once.
#![tactic(auto)]

mod act;
mod key;
mod laws;
mod legality;
mod number;
mod reads;
mod target;

pub use laws::lawful_by_tallies;
pub use legality::legal;
