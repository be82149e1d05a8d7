//! The texts of expressions.

ghost use Rattle.std.specs.Prelude.{◌≡◌, ◌∷◌, [], ◌++◌, IsTrue, OnOk};
ghost use Rattle.nml_tree.specs.Formula.{formula};
ghost use Rattle.nml_tree.specs.Spell.{formula_spelling};
ghost use Rattle.nml_tree.specs.Ended.{ended, is_operator, outer_word};

use crate::expression::Expr;
use crate::spell_leaf::{push_last_size, push_name, push_number, push_size, push_sized, push_word};
use nk_base::{Memory, Text};

/// Appends the expression. It calls itself as deep as the expression is.
#[cycle(expressions)]
#[tactic(auto, using(crate::proofs::EndedLaws::ended_laws, crate::proofs::FormulaLaws::formula_laws))]
pub fn push_expr(text: &mut Text, e: &Expr) -> Result<(), Memory>
    ensures { OnOk result (text.new ≡ text.old ++ ended (formula_spelling (formula e.now))) }
{
    match e {
        Expr::Number(number) => push_number(text, number.value),
        Expr::True(_) | Expr::False(_) => push_word(text, outer(e)),
        Expr::Name(name, index) => match index {
            None => push_name(text, name),
            Some((_, i, _)) => {
                push_name(text, name)?;
                push_between(text, b"[", i.get(), b"]")
            }
        },
        Expr::Paren(_, x, _) => push_between(text, b"(", x.get(), b")"),
        Expr::Int(_, _, size, _, x, _)
        | Expr::Card(_, _, size, _, x, _)
        | Expr::Sat(_, _, size, _, x, _) => {
            push_sized(text, outer(e), size)?;
            push_between(text, b",", x.get(), b")")
        }
        Expr::Bits(_, _, x, _, high, _, low, _) => {
            push_between(text, b"bits (", x.get(), b",")?;
            push_size(text, high)?;
            push_last_size(text, low)
        }
        Expr::If(_, c, _, x, _, y, _) => {
            push_between(text, b"if", c.get(), b"then")?;
            push_expr(text, x.get())?;
            push_between(text, b"else", y.get(), b"endif")
        }
        Expr::Neg(_, _) | Expr::Inv(_, _) | Expr::Not(_, _) => push_operator(text, e),
        Expr::OrElse(_, _, _) | Expr::AndAlso(_, _, _) => push_operator(text, e),
        Expr::Or(_, _, _) | Expr::Xor(_, _, _) | Expr::And(_, _, _) => push_operator(text, e),
        Expr::Eq(_, _, _) | Expr::Ne(_, _, _) | Expr::Lt(_, _, _) => push_operator(text, e),
        Expr::Le(_, _, _) | Expr::Gt(_, _, _) | Expr::Ge(_, _, _) => push_operator(text, e),
        Expr::Shl(_, _, _) | Expr::Shr(_, _, _) | Expr::Add(_, _, _) => push_operator(text, e),
        Expr::Sub(_, _, _) | Expr::Mul(_, _, _) => push_operator(text, e),
    }
}

/// Appends the expression, which is an operator with its operands.
#[cycle(expressions)]
#[tactic(auto, using(crate::proofs::EndedLaws::ended_laws, crate::proofs::FormulaLaws::formula_laws))]
fn push_operator(text: &mut Text, e: &Expr) -> Result<(), Memory>
    requires { IsTrue (is_operator (formula e.now)) }
    ensures { OnOk result (text.new ≡ text.old ++ ended (formula_spelling (formula e.now))) }
{
    match e {
        Expr::Neg(_, x) | Expr::Inv(_, x) | Expr::Not(_, x) => {
            push_word(text, outer(e))?;
            push_expr(text, x.get())
        }
        Expr::OrElse(x, _, y)
        | Expr::AndAlso(x, _, y)
        | Expr::Or(x, _, y)
        | Expr::Xor(x, _, y)
        | Expr::And(x, _, y)
        | Expr::Eq(x, _, y)
        | Expr::Ne(x, _, y)
        | Expr::Lt(x, _, y)
        | Expr::Le(x, _, y)
        | Expr::Gt(x, _, y)
        | Expr::Ge(x, _, y)
        | Expr::Shl(x, _, y)
        | Expr::Shr(x, _, y)
        | Expr::Add(x, _, y)
        | Expr::Sub(x, _, y)
        | Expr::Mul(x, _, y) => {
            push_expr(text, x.get())?;
            push_word(text, outer(e))?;
            push_expr(text, y.get())
        }
        Expr::Number(_) | Expr::True(_) | Expr::False(_) | Expr::Name(_, _) => Ok(()),
        Expr::Paren(_, _, _) | Expr::Int(_, _, _, _, _, _) => Ok(()),
        Expr::Card(_, _, _, _, _, _) | Expr::Sat(_, _, _, _, _, _) => Ok(()),
        Expr::Bits(_, _, _, _, _, _, _, _) | Expr::If(_, _, _, _, _, _, _) => Ok(()),
    }
}

/// Appends the expression with words before it and behind it.
#[cycle(expressions)]
#[tactic(auto, using(crate::proofs::EndedLaws::ended_laws))]
pub fn push_between(text: &mut Text, front: &[u8], e: &Expr, behind: &[u8]) -> Result<(), Memory>
    ensures { OnOk result (text.new ≡ text.old ++ (front.now ++ 32 ∷ ended (formula_spelling (formula e.now)) ++ (behind.now ++ 32 ∷ []))) }
{
    push_word(text, front)?;
    push_expr(text, e)?;
    push_word(text, behind)
}

/// The operator, or the word, that stands outermost in the expression, where all of its kind are one case.
#[tactic(auto, using(crate::proofs::FormulaLaws::formula_laws))]
fn outer(e: &Expr) -> &'static [u8]
    ensures { result.now ≡ outer_word (formula e.now) }
{
    match e {
        Expr::True(_) => b"true",
        Expr::False(_) => b"false",
        Expr::Int(_, _, _, _, _, _) => b"int",
        Expr::Card(_, _, _, _, _, _) => b"card",
        Expr::Sat(_, _, _, _, _, _) => b"sat",
        Expr::Neg(_, _) => b"-",
        Expr::Inv(_, _) => b"~",
        Expr::Not(_, _) => b"!",
        Expr::OrElse(_, _, _) => b"||",
        Expr::AndAlso(_, _, _) => b"&&",
        Expr::Or(_, _, _) => b"|",
        Expr::Xor(_, _, _) => b"^",
        Expr::And(_, _, _) => b"&",
        Expr::Eq(_, _, _) => b"==",
        Expr::Ne(_, _, _) => b"!=",
        Expr::Lt(_, _, _) => b"<",
        Expr::Le(_, _, _) => b"<=",
        Expr::Gt(_, _, _) => b">",
        Expr::Ge(_, _, _) => b">=",
        Expr::Shl(_, _, _) => b"<<",
        Expr::Shr(_, _, _) => b">>",
        Expr::Add(_, _, _) => b"+",
        Expr::Sub(_, _, _) => b"-",
        Expr::Mul(_, _, _) => b"*",
        Expr::Number(_) | Expr::Paren(_, _, _) => b"",
        Expr::Name(_, index) => match index {
            None => b"",
            Some((_, _, _)) => b"",
        },
        Expr::Bits(_, _, _, _, _, _, _, _) | Expr::If(_, _, _, _, _, _, _) => b"",
    }
}
