//! The canonical assembly text of an image.
#![tactic(auto)]

mod cells;
mod decimal;
mod instructions;
mod storages;
mod syntaxes;
mod text;
mod words;

pub use text::disassemble;
