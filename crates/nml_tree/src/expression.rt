//! Expressions, as they are written.

use crate::names::{Name, Number};
use crate::tree::Size;
use sqlite_items::Boxed;

/// An expression.
///
/// A variant's parts stand in the order in which they are written, and a `u32` is the place of a keyword or a mark. A
/// pair of parentheses is a node of its own, so the tree says exactly what was written. The form is this project's own.
#[derive(Drop)]
pub enum Expr {
    /// A number.
    Number(Number),
    /// `true`.
    True(u32),
    /// `false`.
    False(u32),
    /// `NAME`, or `NAME [ index ]` with the places of its two brackets.
    Name(Name, Option<(u32, Boxed<Expr>, u32)>),
    /// `( e )`.
    Paren(u32, Boxed<Expr>, u32),
    /// `int ( size , e )`.
    Int(u32, u32, Size, u32, Boxed<Expr>, u32),
    /// `card ( size , e )`.
    Card(u32, u32, Size, u32, Boxed<Expr>, u32),
    /// `sat ( size , e )`.
    Sat(u32, u32, Size, u32, Boxed<Expr>, u32),
    /// `bits ( e , size , size )`, the highest bit before the lowest.
    Bits(u32, u32, Boxed<Expr>, u32, Size, u32, Size, u32),
    /// `if e then e else e endif`.
    If(u32, Boxed<Expr>, u32, Boxed<Expr>, u32, Boxed<Expr>, u32),
    /// `- e`.
    Neg(u32, Boxed<Expr>),
    /// `~ e`.
    Inv(u32, Boxed<Expr>),
    /// `! e`.
    Not(u32, Boxed<Expr>),
    /// `e || e`.
    OrElse(Boxed<Expr>, u32, Boxed<Expr>),
    /// `e && e`.
    AndAlso(Boxed<Expr>, u32, Boxed<Expr>),
    /// `e | e`.
    Or(Boxed<Expr>, u32, Boxed<Expr>),
    /// `e ^ e`.
    Xor(Boxed<Expr>, u32, Boxed<Expr>),
    /// `e & e`.
    And(Boxed<Expr>, u32, Boxed<Expr>),
    /// `e == e`.
    Eq(Boxed<Expr>, u32, Boxed<Expr>),
    /// `e != e`.
    Ne(Boxed<Expr>, u32, Boxed<Expr>),
    /// `e < e`.
    Lt(Boxed<Expr>, u32, Boxed<Expr>),
    /// `e <= e`.
    Le(Boxed<Expr>, u32, Boxed<Expr>),
    /// `e > e`.
    Gt(Boxed<Expr>, u32, Boxed<Expr>),
    /// `e >= e`.
    Ge(Boxed<Expr>, u32, Boxed<Expr>),
    /// `e << e`.
    Shl(Boxed<Expr>, u32, Boxed<Expr>),
    /// `e >> e`.
    Shr(Boxed<Expr>, u32, Boxed<Expr>),
    /// `e + e`.
    Add(Boxed<Expr>, u32, Boxed<Expr>),
    /// `e - e`.
    Sub(Boxed<Expr>, u32, Boxed<Expr>),
    /// `e * e`.
    Mul(Boxed<Expr>, u32, Boxed<Expr>),
}
