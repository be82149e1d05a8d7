//! Places and statements, as they are written.

use crate::expression::Expr;
use crate::names::Name;
use sqlite_items::Items;

/// What is assigned: `NAME`, or `NAME [ index ]` with the places of its two brackets.
///
/// The form is this project's own.
#[derive(Drop)]
pub struct Place {
    pub name: Name,
    pub index: Option<(u32, Expr, u32)>,
}

/// A statement of an action.
///
/// A variant's parts stand in the order in which they are written, and a `u32` is the place of a keyword or a mark. The
/// form is this project's own.
#[derive(Drop)]
pub enum Stmt {
    /// `place = e ;`.
    Assign(Place, u32, Expr, u32),
    /// `NAME . action ;`, the action of a part.
    Part(Name, u32, u32, u32),
    /// `halt ( e ) ;`.
    Halt(u32, u32, Expr, u32, u32),
    /// `if e then stmts endif ;`, or `if e then stmts else stmts endif ;`.
    If(u32, Expr, u32, Items<Stmt>, Option<(u32, Items<Stmt>)>, u32, u32),
}
