//! Statements.

use crate::tree::Tree;
use ir_core::Rel;

/// A statement. A label is named by its number, and stands where the first mark of that number does.
///
/// One that goes to a label without a mark stays where it is. The form is this project's own.
#[derive(Drop)]
pub enum Stmt {
    /// Puts a value into a cell. A cell that doesn't exist takes nothing.
    Set(u32, Tree),
    /// Puts the second tree's value into the cell whose number the first is worth, modulo 2^n.
    Store(Tree, Tree),
    /// Puts out a number.
    Out(Tree),
    /// Goes to the mark of the label where the two numbers are so related.
    Branch(Rel, Tree, Tree, u32),
    /// Goes to the mark of the label that the cell holds.
    JumpCell(u32),
    /// Goes to the mark of the label.
    Jump(u32),
    /// Where the label stands. It does nothing.
    Mark(u32),
    /// Stops: with 0 at the end, else with the trap of this number.
    Halt(u8),
}
