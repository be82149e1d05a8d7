//! What an operand begins with, where that is a keyword or a mark.
ghost use Rattle.std.specs.Prelude.{◌≡◌};
ghost use Rattle.std.specs.Option.{option_map};
ghost use Rattle.nml_tree.specs.Formula.{formula, Fitted, Truth, Unary};
ghost use Rattle.readings.specs.Reading.{looked_up};
ghost use Rattle.nml_grammar.specs.Reading.{beginnings};
ghost use Rattle.nml_statement.specs.Forms.{beginning_of, fit_of, prefix_of};

use nml_tree::{Expr, Size};
use sqlite_items::Boxed;

/// What fits a number into a type.
#[derive(Clone, Copy)]
pub enum Fit {
    Int,
    Card,
    Sat,
}

/// An operator of one operand.
#[derive(Clone, Copy)]
pub enum Prefix {
    Neg,
    Inv,
    Not,
}

/// An expression that has others within it.
#[derive(Clone, Copy)]
pub enum Form {
    /// `( e )`.
    Paren,
    /// `int ( size , e )` and the like.
    Fitted(Fit),
    /// `bits ( e , size , size )`.
    Slice,
    /// `if e then e else e endif`.
    Choice,
    /// An operator and its one operand.
    Operation(Prefix),
}

/// What a keyword or a mark begins.
#[derive(Clone, Copy)]
pub enum Beginning {
    /// A truth value, which is the whole expression.
    Value(bool),
    /// An expression that has others within it.
    Node(Form),
}

/// What this keyword or mark begins.
pub fn begun_by(text: &[u8]) -> Option<Beginning>
    ensures { option_map beginning_of result ≡ looked_up beginnings text.now }
{
    if text == b"true".as_slice() {
        Some(Beginning::Value(true))
    } else if text == b"false".as_slice() {
        Some(Beginning::Value(false))
    } else if text == b"(".as_slice() {
        Some(Beginning::Node(Form::Paren))
    } else if text == b"int".as_slice() {
        Some(Beginning::Node(Form::Fitted(Fit::Int)))
    } else if text == b"card".as_slice() {
        Some(Beginning::Node(Form::Fitted(Fit::Card)))
    } else if text == b"sat".as_slice() {
        Some(Beginning::Node(Form::Fitted(Fit::Sat)))
    } else if text == b"bits".as_slice() {
        Some(Beginning::Node(Form::Slice))
    } else if text == b"if".as_slice() {
        Some(Beginning::Node(Form::Choice))
    } else if text == b"-".as_slice() {
        Some(Beginning::Node(Form::Operation(Prefix::Neg)))
    } else if text == b"~".as_slice() {
        Some(Beginning::Node(Form::Operation(Prefix::Inv)))
    } else if text == b"!".as_slice() {
        Some(Beginning::Node(Form::Operation(Prefix::Not)))
    } else {
        None
    }
}

/// The truth value at this place.
#[tactic(auto, using(nml_tree::proofs::FormulaLaws::formula_laws))]
pub fn truth(at: u32, value: bool) -> Expr
    ensures { formula result ≡ Truth at value }
{
    if value {
        Expr::True(at)
    } else {
        Expr::False(at)
    }
}

/// The expression that fits another into a type of this size, with the places of its keyword and its marks.
#[tactic(auto, using(nml_tree::proofs::FormulaLaws::formula_laws))]
pub fn fitting(
    fit: Fit,
    at: u32,
    opening: u32,
    size: Size,
    comma: u32,
    inner: Boxed<Expr>,
    closing: u32,
) -> Expr
    ensures { formula result ≡ Fitted (fit_of fit) at opening size comma (formula inner) closing }
{
    match fit {
        Fit::Int => Expr::Int(at, opening, size, comma, inner, closing),
        Fit::Card => Expr::Card(at, opening, size, comma, inner, closing),
        Fit::Sat => Expr::Sat(at, opening, size, comma, inner, closing),
    }
}

/// The operator of one operand at this place, with its operand.
#[tactic(auto, using(nml_tree::proofs::FormulaLaws::formula_laws))]
pub fn operating(op: Prefix, at: u32, inner: Boxed<Expr>) -> Expr
    ensures { formula result ≡ Unary (prefix_of op) at (formula inner) }
{
    match op {
        Prefix::Neg => Expr::Neg(at, inner),
        Prefix::Inv => Expr::Inv(at, inner),
        Prefix::Not => Expr::Not(at, inner),
    }
}
