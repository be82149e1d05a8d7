//! The texts of expressions.

ghost use Rattle.std.specs.Prelude.{◌≡◌, ◌++◌, OnOk, ℕ, map};
ghost use Rattle.c_tree.specs.Formula.{formula, further};
ghost use Rattle.c_tree.specs.Spell.{formula_spelling, further_spelling};
ghost use Rattle.c_tree.specs.Ended.{ended, outer_mark};

use crate::expression::Expr;
use crate::spell_leaf::{push_name, push_number, push_word};
use nk_base::{Memory, Text};

/// Appends the expression. It calls itself as deep as the expression is.
#[cycle(expressions)]
#[tactic(auto, using(crate::proofs::EndedLaws::ended_laws, crate::proofs::FormulaLaws::formula_laws))]
pub fn push_expr(text: &mut Text, e: &Expr) -> Result<(), Memory>
    ensures { OnOk result (text.new ≡ text.old ++ ended (formula_spelling (formula e.now))) }
{
    match e {
        Expr::Number(number) => push_number(text, *number),
        Expr::Name(name, index) => match index {
            None => push_name(text, name),
            Some((_, i, _)) => {
                push_name(text, name)?;
                push_word(text, b"[")?;
                push_expr(text, i.get())?;
                push_word(text, b"]")
            }
        },
        Expr::Call(name, _, arguments, _) => match arguments {
            None => {
                push_name(text, name)?;
                push_word(text, b"( )")
            }
            Some((first, rest)) => {
                push_name(text, name)?;
                push_word(text, b"(")?;
                push_expr(text, first.get())?;
                push_further(text, rest.as_slice())?;
                push_word(text, b")")
            }
        },
        Expr::Paren(_, x, _) => {
            push_word(text, b"(")?;
            push_expr(text, x.get())?;
            push_word(text, b")")
        }
        Expr::Neg(_, x) | Expr::Inv(_, x) | Expr::Not(_, x) => {
            push_word(text, outer(e))?;
            push_expr(text, x.get())
        }
        Expr::OrElse(x, _, y)
        | Expr::AndAlso(x, _, y)
        | Expr::Or(x, _, y)
        | Expr::Xor(x, _, y)
        | Expr::And(x, _, y)
        | Expr::Eq(x, _, y)
        | Expr::Ne(x, _, y)
        | Expr::Lt(x, _, y)
        | Expr::Le(x, _, y)
        | Expr::Gt(x, _, y)
        | Expr::Ge(x, _, y)
        | Expr::Shl(x, _, y)
        | Expr::Shr(x, _, y)
        | Expr::Add(x, _, y)
        | Expr::Sub(x, _, y)
        | Expr::Mul(x, _, y) => {
            push_expr(text, x.get())?;
            push_word(text, outer(e))?;
            push_expr(text, y.get())
        }
    }
}

/// Appends further arguments, each with the comma before it.
#[cycle(expressions)]
#[tactic(auto, using(crate::proofs::EndedLaws::ended_laws, crate::proofs::FormulaLaws::formula_laws))]
pub fn push_further(text: &mut Text, rest: &[(u32, Expr)]) -> Result<(), Memory>
    ensures { OnOk result (text.new ≡ text.old ++ ended (further_spelling (further (map (λ (comma, y). (comma, formula y)) rest.now)))) }
{
    for (_, one) in rest {
        push_word(text, b",")?;
        push_expr(text, one)?;
    }
    Ok(())
}

/// The operator that stands outermost in the expression, where all of its kind are one case.
#[tactic(auto, using(crate::proofs::FormulaLaws::formula_laws))]
fn outer(e: &Expr) -> &'static [u8]
    ensures { result.now ≡ outer_mark (formula e.now) }
{
    match e {
        Expr::Neg(_, _) => b"-",
        Expr::Inv(_, _) => b"~",
        Expr::Not(_, _) => b"!",
        Expr::OrElse(_, _, _) => b"||",
        Expr::AndAlso(_, _, _) => b"&&",
        Expr::Or(_, _, _) => b"|",
        Expr::Xor(_, _, _) => b"^",
        Expr::And(_, _, _) => b"&",
        Expr::Eq(_, _, _) => b"==",
        Expr::Ne(_, _, _) => b"!=",
        Expr::Lt(_, _, _) => b"<",
        Expr::Le(_, _, _) => b"<=",
        Expr::Gt(_, _, _) => b">",
        Expr::Ge(_, _, _) => b">=",
        Expr::Shl(_, _, _) => b"<<",
        Expr::Shr(_, _, _) => b">>",
        Expr::Add(_, _, _) => b"+",
        Expr::Sub(_, _, _) => b"-",
        Expr::Mul(_, _, _) => b"*",
        Expr::Number(_) | Expr::Paren(_, _, _) => b"",
        Expr::Name(_, index) => match index {
            None => b"",
            Some((_, _, _)) => b"",
        },
        Expr::Call(_, _, arguments, _) => match arguments {
            None => b"",
            Some((_, _)) => b"",
        },
    }
}
