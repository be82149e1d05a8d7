//! A machine in code that runs programs of the C subset: it has a stack of frames, and goes over a program's nodes.
#![tactic(auto)]

mod code;
mod command;
mod data;
mod evaluate;
mod give;
mod machine;
mod onward;
mod pass;
mod step;
mod task;

pub use code::{Code, Entry};
pub use machine::Machine;
pub use task::{Expects, Moved, Pending, Repeat, Task};
