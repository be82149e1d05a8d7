//! How faults are told.
#![tactic(auto)]

mod assembly;
mod description;
mod image;
mod program;
mod push;

pub use assembly::{is_asm_memory, push_asm_fault};
pub use description::{is_memory, push_fault};
pub use image::{is_image_memory, push_image_fault};
pub use program::{is_c_memory, push_c_fault};
