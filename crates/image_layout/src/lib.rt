//! By what the images of a description are measured.
#![tactic(auto)]

mod laws;
mod measured;

pub use laws::limited;
pub use measured::layout_of;
