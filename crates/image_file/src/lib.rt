//! Image files: an image as bytes, and bytes as an image.
#![tactic(auto)]

mod fault;
mod fields;
mod image;
mod laws;
mod layout;
mod reader;
mod writer;

pub use fault::ImageFault;
pub use image::{DataCell, Image};
pub use laws::{one_answer, some_answer, valid_has_file};
pub use layout::Layout;
pub use reader::read;
pub use writer::{one_file, write};
