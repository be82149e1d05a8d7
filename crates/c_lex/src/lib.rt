//! The tokens of a program's bytes.
#![tactic(auto)]

mod fault;
mod law;
mod limit;
mod scan;
mod space;
mod vocabulary;
mod word;

pub use fault::LexFault;
pub use law::{one_lexing, some_lexing, tokens_stand};
pub use limit::number_value;
pub use scan::lex;
pub use vocabulary::{is_keyword, is_outside};
