//! What an instruction does, by the definitions: the reference for what the tools do faster.
#![tactic(auto)]

mod count;
mod finish;
mod give;
mod instruction;
mod look;
mod port;
mod read;
mod run;
mod statement;

pub use finish::{answer, settle};
pub use give::{Done, halt_with, look_at, put_out};
pub use instruction::exec;
pub use port::{out_type, storage_number};
