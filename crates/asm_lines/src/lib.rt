//! A line of assembly text: its label, and an instruction's tokens or a directive.
#![tactic(auto)]

mod directive;
mod front;
mod instruction;
mod line;
mod number;
mod reading;

pub use line::{Content, Data, Line, Reference, Tokens};
pub use reading::read_line;
