//! The attributes of a derivation, by the definitions: the reference for what the tools do faster.
#![tactic(auto)]

mod laws;
mod operate;
mod run;
mod shape;
mod skip;
mod text;
mod turn;
mod value;
mod word;

pub use laws::legal_by_pairs;
pub use operate::{binary, is_zero, truth, unary};
pub use shape::{Node, top};
pub use skip::skip_pars;
pub use text::syntax;
pub use turn::{Made, Turn, first_par, first_turn, part_of};
pub use value::{mode_value, size_bits, worth};
pub use word::image;
