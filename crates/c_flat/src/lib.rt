//! A program with its names resolved, as nodes in one list, each behind those that it is made of.
#![tactic(auto)]

mod bodies;
mod chain;
mod command;
mod declaration;
mod expression;
mod function;
mod make;
mod node;
mod simple;
mod sort;

pub use bodies::push_bodies;
pub use chain::{Chain, push_list};
pub use command::push_block;
pub use declaration::{push_first, push_locals};
pub use expression::{push_expression, push_further};
pub use function::{Body, push_function};
pub use make::{called_node, element_node, scalar_node};
pub use node::{Node, push_node};
pub use simple::push_simple;
pub use sort::{CommandNode, TermNode, command_node, term_node, terms_node};
