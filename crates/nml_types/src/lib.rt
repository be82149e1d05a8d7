//! Whether a description is typed, and whether it is accepted: each fault of names, cycles, kinds, widths, mentions, words, edges, the root,
//! the number of shapes, images and texts, the lowest number first, each at its first place.
#![tactic(auto)]

mod checking;
mod law;
mod typing;

pub use checking::{Summary, check, sum_up};
pub use law::{one_fault, some_fault};
pub use typing::typed;
