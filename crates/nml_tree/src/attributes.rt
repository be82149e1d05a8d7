//! The attributes of a rule with parameters, as they are written.

use crate::names::{Name, Quoted};
use crate::statement::Stmt;
use sqlite_items::Items;

/// Which attribute of a part a text takes, and the place of its keyword. The form is this project's own.
#[derive(Clone, Copy)]
pub enum Attribute {
    Syntax(u32),
    Image(u32),
}

/// An argument of `format`: `NAME`, or `NAME . attribute` with the place of its dot.
///
/// The form is this project's own.
#[derive(Drop)]
pub struct Arg {
    pub name: Name,
    pub attribute: Option<(u32, Attribute)>,
}

/// The text of `syntax` or `image`.
///
/// A variant's parts stand in the order in which they are written, and a `u32` is the place of a keyword or a mark. The
/// form is this project's own.
#[derive(Drop)]
pub enum Template {
    /// A string alone.
    Plain(Quoted),
    /// `NAME . attribute`, that of a part.
    Part(Name, u32, Attribute),
    /// `format ( string , arg , arg )`, each argument with the comma before it.
    Format(u32, u32, Quoted, Items<(u32, Arg)>, u32),
}

/// `action = { stmts }`, with the places of the keyword, of `=` and of the braces.
///
/// The form is this project's own.
#[derive(Drop)]
pub struct Action {
    pub action: u32,
    pub equals: u32,
    pub opening: u32,
    pub stmts: Items<Stmt>,
    pub closing: u32,
}

/// `syntax = text image = text`, and an action where there is one, with the places of the keywords and of each `=`.
///
/// The form is this project's own.
#[derive(Drop)]
pub struct Attrs {
    pub syntax: u32,
    pub syntax_equals: u32,
    pub syntax_text: Template,
    pub image: u32,
    pub image_equals: u32,
    pub image_text: Template,
    pub action: Option<Action>,
}
