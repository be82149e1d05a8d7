//! A description and its items, as they are written.

use crate::attributes::Attrs;
use crate::expression::Expr;
use crate::names::{Name, Number};
use sqlite_items::Items;

/// A size: a number, or the name of one. The form is this project's own.
#[derive(Drop)]
pub enum Size {
    Number(Number),
    Name(Name),
}

/// A type.
///
/// A variant's parts stand in the order in which they are written, and a `u32` is the place of a keyword or a mark. The
/// form is this project's own.
#[derive(Drop)]
pub enum TypeExpr {
    /// `bool`.
    Bool(u32),
    /// `card ( size )`.
    Card(u32, u32, Size, u32),
    /// `int ( size )`.
    Int(u32, u32, Size, u32),
    /// `fix ( size , size )`.
    Fix(u32, u32, Size, u32, Size, u32),
    /// `float ( size , size )`.
    Float(u32, u32, Size, u32, Size, u32),
    /// The name of a type, or for a parameter of a rule.
    Name(Name),
}

/// A parameter, `NAME : type`, with the place of its colon. The form is this project's own.
#[derive(Drop)]
pub struct Par {
    pub name: Name,
    pub colon: u32,
    pub ty: TypeExpr,
}

/// The parameters of a rule: the first, and each further one with the comma before it.
///
/// The form is this project's own.
#[derive(Drop)]
pub struct Pars {
    pub first: Par,
    pub rest: Items<(u32, Par)>,
}

/// `mem` or `reg`, and its place. The form is this project's own.
#[derive(Clone, Copy)]
pub enum StorageWord {
    Mem(u32),
    Reg(u32),
}

/// `trn`, `inp` or `out`, and its place. The form is this project's own.
#[derive(Clone, Copy)]
pub enum PortWord {
    Trn(u32),
    Inp(u32),
    Out(u32),
}

/// `op` or `mode`, and its place; `opn` is the same word as `op`. The form is this project's own.
#[derive(Clone, Copy)]
pub enum RuleWord {
    Op(u32),
    Mode(u32),
}

/// A storage, `mem NAME [ size , type ]` or `reg NAME [ size , type ]`, with the places of its marks.
///
/// The form is this project's own.
#[derive(Drop)]
pub struct Storage {
    pub word: StorageWord,
    pub name: Name,
    pub opening: u32,
    pub size: Size,
    pub comma: u32,
    pub ty: TypeExpr,
    pub closing: u32,
}

/// A transitory or a port, `trn NAME [ type ]` and the like, with the places of its marks.
///
/// The form is this project's own.
#[derive(Drop)]
pub struct Port {
    pub word: PortWord,
    pub name: Name,
    pub opening: u32,
    pub ty: TypeExpr,
    pub closing: u32,
}

/// A rule of alternatives, `op NAME = NAME | NAME`: the first, and each further one with the bar before it.
///
/// The form is this project's own.
#[derive(Drop)]
pub struct OrRule {
    pub word: RuleWord,
    pub name: Name,
    pub equals: u32,
    pub first: Name,
    pub rest: Items<(u32, Name)>,
}

/// A rule with parameters and no value, `op NAME ( pars ) attrs`, with the places of its keyword and its marks.
///
/// The form is this project's own.
#[derive(Drop)]
pub struct OpRule {
    pub op: u32,
    pub name: Name,
    pub opening: u32,
    pub pars: Option<Pars>,
    pub closing: u32,
    pub attrs: Attrs,
}

/// A rule with parameters and a value, `mode NAME ( pars ) = e attrs`, with the places of its keyword and its marks.
///
/// The form is this project's own.
#[derive(Drop)]
pub struct ModeRule {
    pub mode: u32,
    pub name: Name,
    pub opening: u32,
    pub pars: Option<Pars>,
    pub closing: u32,
    pub equals: u32,
    pub value: Expr,
    pub attrs: Attrs,
}

/// An item of a description.
///
/// A variant's parts stand in the order in which they are written, and a `u32` is the place of a keyword or a mark. The
/// form is this project's own.
#[derive(Drop)]
pub enum Item {
    /// `let NAME = number`, or `let NAME = - number`.
    Let(u32, Name, u32, Option<u32>, Number),
    /// `type NAME = type`.
    Type(u32, Name, u32, TypeExpr),
    Storage(Storage),
    Port(Port),
    OrRule(OrRule),
    OpRule(OpRule),
    ModeRule(ModeRule),
}

/// A description as it is written: its items in order.
///
/// Each left side of the grammar is a type of its own, and each token's place is kept. What the names mean isn't looked
/// at. The form is this project's own.
#[derive(Drop)]
pub struct Desc {
    pub items: Items<Item>,
}
