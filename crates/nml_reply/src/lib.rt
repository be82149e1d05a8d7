//! What a call tells: statuses, the lines of refusals and of results, and how they are put.
#![tactic(auto)]

mod lines;
mod refusal;
mod reply;
mod status;
mod stop;

pub use lines::{put_line, put_output, put_stop};
pub use refusal::Refusal;
pub use reply::{ended, put, tell, tell_assembled, tell_refusal, tell_summary, tell_text};
pub use status::Status;
pub use stop::Stop;
