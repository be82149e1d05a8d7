//! The names in sizes, types and expressions.
ghost use Rattle.std.specs.Prelude.{◌≡◌};
ghost use Rattle.nml_tree.specs.Formula.{formula};
ghost use Rattle.nml_tree.specs.Uses.{in_size, in_type, in_formula};
ghost use Rattle.nml_names.specs.Found.{met, is_found};

use crate::scope::{Scope, name};
use nml_tree::{Expr, Size, TypeExpr};

/// Notes the size's name where it isn't known.
pub fn size(s: &Scope<'_>, size: &Size, found: Option<u32>) -> Option<u32>
    ensures { result ≡ met (is_found s.now) found (in_size size.now) }
{
    match size {
        Size::Number(_) => found,
        Size::Name(n) => name(s, n, found),
    }
}

/// Notes the least name of the type that isn't known.
#[tactic(auto, using(crate::proofs::Notes::met_append))]
pub fn ty(s: &Scope<'_>, e: &TypeExpr, found: Option<u32>) -> Option<u32>
    ensures { result ≡ met (is_found s.now) found (in_type e.now) }
{
    match e {
        TypeExpr::Bool(_) => found,
        TypeExpr::Card(_, _, n, _) => size(s, n, found),
        TypeExpr::Int(_, _, n, _) => size(s, n, found),
        TypeExpr::Fix(_, _, n, _, m, _) => size(s, m, size(s, n, found)),
        TypeExpr::Float(_, _, n, _, m, _) => size(s, m, size(s, n, found)),
        TypeExpr::Name(n) => name(s, n, found),
    }
}

/// Notes the least name of the expression that isn't known. It calls itself as deep as the expression is.
#[tactic(auto, using(crate::proofs::Notes::met_append, nml_tree::proofs::FormulaLaws::formula_laws))]
pub fn expr(s: &Scope<'_>, e: &Expr, found: Option<u32>) -> Option<u32>
    ensures { result ≡ met (is_found s.now) found (in_formula (formula e.now)) }
{
    match e {
        Expr::Number(_) | Expr::True(_) | Expr::False(_) => found,
        Expr::Name(n, index) => match index {
            None => name(s, n, found),
            Some((_, i, _)) => expr(s, i.get(), name(s, n, found)),
        },
        Expr::Paren(_, x, _) => expr(s, x.get(), found),
        Expr::Int(_, _, n, _, x, _) | Expr::Card(_, _, n, _, x, _) | Expr::Sat(_, _, n, _, x, _) =>
            { expr(s, x.get(), size(s, n, found)) }
        Expr::Bits(_, _, x, _, high, _, low, _) => {
            size(s, low, size(s, high, expr(s, x.get(), found)))
        }
        Expr::If(_, c, _, x, _, y, _) => {
            expr(s, y.get(), expr(s, x.get(), expr(s, c.get(), found)))
        }
        Expr::Neg(_, x) | Expr::Inv(_, x) | Expr::Not(_, x) => expr(s, x.get(), found),
        Expr::OrElse(x, _, y)
        | Expr::AndAlso(x, _, y)
        | Expr::Or(x, _, y)
        | Expr::Xor(x, _, y)
        | Expr::And(x, _, y)
        | Expr::Eq(x, _, y)
        | Expr::Ne(x, _, y)
        | Expr::Lt(x, _, y)
        | Expr::Le(x, _, y)
        | Expr::Gt(x, _, y)
        | Expr::Ge(x, _, y)
        | Expr::Shl(x, _, y)
        | Expr::Shr(x, _, y)
        | Expr::Add(x, _, y)
        | Expr::Sub(x, _, y)
        | Expr::Mul(x, _, y) => expr(s, y.get(), expr(s, x.get(), found)),
    }
}
