//! The tokens of a description's bytes.
#![tactic(auto)]

mod law;
mod limit;
mod scan;
mod space;
mod word;

pub use law::{one_lexing, some_lexing};
pub use limit::number_value;
pub use scan::{Token, Tokens, lex};
