//! A list of statements with its cells.

use crate::statement::Stmt;
use sqlite_items::Items;

/// Cells with what they hold from the start, a constant, an array's first cell or a label, and the first temporary.
///
/// They have no part in what statements do. The form is this project's own.
#[derive(Drop)]
pub struct Homes {
    pub consts: Items<(u32, i64)>,
    pub bases: Items<(u32, u32)>,
    pub labels: Items<(u32, u32)>,
    pub temps: u32,
}

/// Statements, how many cells they have, what cells hold at the start, each array's first cell and length, and the homes.
///
/// A value is a number of n bits with a sign, or a label l, which is kept as 2^32 + l. A cell that isn't named at the start
/// holds 0. The form is this project's own.
#[derive(Drop)]
pub struct Ir {
    pub stmts: Items<Stmt>,
    pub cells: u32,
    pub start: Items<(u32, i64)>,
    pub arrays: Items<(u32, u32)>,
    pub homes: Homes,
}
