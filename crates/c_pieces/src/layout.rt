//! What the statements of a function rest on.

use c_count::Size;
use c_flat::Node;

/// A function's first cell, which is that of its first parameter, its result cell, its return cell and its label.
///
/// The form is this project's own.
#[derive(Clone, Copy)]
pub struct Frame {
    pub first: u32,
    pub result: u32,
    pub ret: u32,
    pub label: u32,
}

/// Numbers of `bits` bits, the first cell of the function's own, the frames of the functions that are called, and the trap's
/// label.
///
/// The form is this project's own.
#[derive(Clone, Copy)]
pub struct Layout<'a> {
    pub bits: u32,
    pub base: u32,
    pub frames: &'a [Frame],
    pub trap: u32,
}

/// The nodes of a program, and what is counted of each.
///
/// The form is this project's own.
#[derive(Clone, Copy)]
pub struct Nodes<'a> {
    pub nodes: &'a [Node],
    pub sizes: &'a [Size],
}

/// What an expression aims at: its value, or to go to a label where it holds, or where it fails.
///
/// The form is this project's own.
#[derive(Clone, Copy)]
pub enum Aim {
    Value,
    When(u32),
    Unless(u32),
}

/// The first step cell and the first label that are free, and whether a call begins further right in the full expression.
///
/// The form is this project's own.
#[derive(Clone, Copy)]
pub struct At {
    pub cell: u32,
    pub label: u32,
    pub later: bool,
}
