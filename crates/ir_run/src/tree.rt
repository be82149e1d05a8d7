//! Trees over cells and constants.

use sqlite_items::Boxed;

/// A tree: its root, and what stands below it. It is evaluated from left to right.
///
/// The form is this project's own.
#[derive(Drop)]
pub enum Tree {
    /// A number, which is worth itself, wrapped.
    Const(i64),
    /// An array's first cell, as a number, wrapped.
    Base(u32),
    /// A label. Under an operator, in a relation, as an address or as an output it counts as its number, wrapped.
    Label(u32),
    /// What a cell holds; 0 where there is no such cell.
    Cell(u32),
    /// The next input.
    In,
    /// What the cell holds whose number the tree is worth, modulo 2^n.
    Load(Boxed<Tree>),
    Neg(Boxed<Tree>),
    Not(Boxed<Tree>),
    Shl(Boxed<Tree>, u32),
    Shr(Boxed<Tree>, u32),
    Add(Boxed<Tree>, Boxed<Tree>),
    Sub(Boxed<Tree>, Boxed<Tree>),
    Mul(Boxed<Tree>, Boxed<Tree>),
    And(Boxed<Tree>, Boxed<Tree>),
    Or(Boxed<Tree>, Boxed<Tree>),
    Xor(Boxed<Tree>, Boxed<Tree>),
}
