//! The suite's top call: words in, text and a status out.
#![tactic(auto)]

mod arguments;
mod assemble;
mod ceval;
mod describe;
mod dis;
mod evaluate;
mod image;
mod input;
mod law;
mod load;
mod ready;
mod run;
mod summary;
mod top;

pub use arguments::{tell_memory, words_of};
pub use law::{asm_then_dis, asm_then_run, one_work, some_work};
pub use nml_reply::Status;
pub use top::suite;
