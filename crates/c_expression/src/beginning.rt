//! What an operand begins with, where that is a mark.
ghost use Rattle.std.specs.Prelude.{◌≡◌};
ghost use Rattle.std.specs.Option.{option_map};
ghost use Rattle.c_tree.specs.Formula.{formula, Unary};
ghost use Rattle.readings.specs.Reading.{looked_up};
ghost use Rattle.c_grammar.specs.Reading.{beginnings};
ghost use Rattle.c_expression.specs.Forms.{form_of, prefix_of};

use c_tree::Expr;
use sqlite_items::Boxed;

/// An operator of one operand.
#[derive(Clone, Copy)]
pub enum Prefix {
    Neg,
    Inv,
    Not,
}

/// An expression that has another within it, by the mark that it begins with.
#[derive(Clone, Copy)]
pub enum Form {
    /// `( e )`.
    Paren,
    /// An operator and its one operand.
    Operation(Prefix),
}

/// What this mark begins.
pub fn begun_by(text: &[u8]) -> Option<Form>
    ensures { option_map form_of result ≡ looked_up beginnings text.now }
{
    if text == b"(".as_slice() {
        Some(Form::Paren)
    } else if text == b"-".as_slice() {
        Some(Form::Operation(Prefix::Neg))
    } else if text == b"~".as_slice() {
        Some(Form::Operation(Prefix::Inv))
    } else if text == b"!".as_slice() {
        Some(Form::Operation(Prefix::Not))
    } else {
        None
    }
}

/// The operator of one operand at this place, with its operand.
#[tactic(auto, using(c_tree::proofs::FormulaLaws::formula_laws))]
pub fn operating(op: Prefix, at: u32, inner: Boxed<Expr>) -> Expr
    ensures { formula result ≡ Unary (prefix_of op) at (formula inner) }
{
    match op {
        Prefix::Neg => Expr::Neg(at, inner),
        Prefix::Inv => Expr::Inv(at, inner),
        Prefix::Not => Expr::Not(at, inner),
    }
}
