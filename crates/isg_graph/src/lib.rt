//! The graph of a checked description: its shapes, what each does as nodes, and what a word of a shape is and does.
#![tactic(auto)]

mod graph;

pub use graph::Isg;
