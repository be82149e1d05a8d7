//! The statements of expressions: their steps, and the trees that are left.
#![tactic(auto)]

mod layout;
mod piece;
mod read;
mod simple;
mod single;
mod sizes;
mod tree;
mod truth;

pub use layout::{Aim, At, Frame, Layout, Nodes};
pub use piece::{push_arguments, push_call, push_index, push_piece};
pub use read::{node_of, term_of, terms_of};
pub use simple::{
    cell_number, frame_at, kept, number, push_jump, push_load, push_scalar, push_tests,
};
pub use single::{push, push_branch, push_set, push_used};
pub use sizes::{
    arguments_of, cell_behind, cell_behind_arguments, label_behind, label_behind_arguments,
    later_with, later_within, other_label, size_of,
};
pub use tree::{address, binary, load, shift, sum, unary};
pub use truth::{aimed, inside, opposed, push_before, push_behind};
