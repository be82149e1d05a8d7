//! The node at the top of an expression, operators of a kind in one.

ghost use Rattle.std.specs.Prelude.{◌≡◌};
ghost use Rattle.nml_tree.specs.Depth.{depth};
ghost use Rattle.nml_tree.specs.Formula.{formula};
ghost use Rattle.nml_worth.specs.Node.{AreLess, whole};

use nml_tree::{Bin, Expr, Name, Number, Size};

/// An operator of one operand: `-`, `~`, `!`.
#[derive(Clone, Copy)]
pub enum Prefix {
    Neg,
    Inv,
    Not,
}

/// What fits a number into a type: `int(n, e)`, `card(n, e)`, `sat(n, e)`.
#[derive(Clone, Copy)]
pub enum Fit {
    Int,
    Card,
    Sat,
}

/// An expression's top, with what stands below it; a `u32` is the place of a keyword or a mark.
#[derive(Clone, Copy)]
pub enum Node<'e> {
    Numeral(Number),
    Truth(u32, bool),
    Named(&'e Name),
    Indexed(&'e Name, u32, &'e Expr, u32),
    Paren(u32, &'e Expr, u32),
    Fitted(Fit, u32, u32, &'e Size, u32, &'e Expr, u32),
    Bits(u32, u32, &'e Expr, u32, &'e Size, u32, &'e Size, u32),
    Choose(u32, &'e Expr, u32, &'e Expr, u32, &'e Expr, u32),
    Unary(Prefix, u32, &'e Expr),
    Binary(Bin, &'e Expr, u32, &'e Expr),
}

/// The node at the top. It takes no memory.
#[tactic(auto, using(nml_tree::proofs::FormulaLaws::formula_laws))]
pub fn top(e: &Expr) -> Node<'_>
    ensures is { formula e.now ≡ whole result }
    ensures less { AreLess result (depth (formula e.now)) }
{
    match e {
        Expr::Number(n) => Node::Numeral(*n),
        Expr::True(at) => Node::Truth(*at, true),
        Expr::False(at) => Node::Truth(*at, false),
        Expr::Name(n, index) => match index {
            None => Node::Named(n),
            Some((p, i, q)) => Node::Indexed(n, *p, i.get(), *q),
        },
        Expr::Paren(p, x, q) => Node::Paren(*p, x.get(), *q),
        Expr::Int(at, p, n, c, x, q) => Node::Fitted(Fit::Int, *at, *p, n, *c, x.get(), *q),
        Expr::Card(at, p, n, c, x, q) => Node::Fitted(Fit::Card, *at, *p, n, *c, x.get(), *q),
        Expr::Sat(at, p, n, c, x, q) => Node::Fitted(Fit::Sat, *at, *p, n, *c, x.get(), *q),
        Expr::Bits(at, p, x, c, hi, d, lo, q) => Node::Bits(*at, *p, x.get(), *c, hi, *d, lo, *q),
        Expr::If(at, c, t, x, f, y, q) => Node::Choose(*at, c.get(), *t, x.get(), *f, y.get(), *q),
        Expr::Neg(at, x) => Node::Unary(Prefix::Neg, *at, x.get()),
        Expr::Inv(at, x) => Node::Unary(Prefix::Inv, *at, x.get()),
        Expr::Not(at, x) => Node::Unary(Prefix::Not, *at, x.get()),
        Expr::OrElse(x, at, y) => Node::Binary(Bin::OrElse, x.get(), *at, y.get()),
        Expr::AndAlso(x, at, y) => Node::Binary(Bin::AndAlso, x.get(), *at, y.get()),
        Expr::Or(x, at, y) => Node::Binary(Bin::Or, x.get(), *at, y.get()),
        Expr::Xor(x, at, y) => Node::Binary(Bin::Xor, x.get(), *at, y.get()),
        Expr::And(x, at, y) => Node::Binary(Bin::And, x.get(), *at, y.get()),
        Expr::Eq(x, at, y) => Node::Binary(Bin::Eq, x.get(), *at, y.get()),
        Expr::Ne(x, at, y) => Node::Binary(Bin::Ne, x.get(), *at, y.get()),
        Expr::Lt(x, at, y) => Node::Binary(Bin::Lt, x.get(), *at, y.get()),
        Expr::Le(x, at, y) => Node::Binary(Bin::Le, x.get(), *at, y.get()),
        Expr::Gt(x, at, y) => Node::Binary(Bin::Gt, x.get(), *at, y.get()),
        Expr::Ge(x, at, y) => Node::Binary(Bin::Ge, x.get(), *at, y.get()),
        Expr::Shl(x, at, y) => Node::Binary(Bin::Shl, x.get(), *at, y.get()),
        Expr::Shr(x, at, y) => Node::Binary(Bin::Shr, x.get(), *at, y.get()),
        Expr::Add(x, at, y) => Node::Binary(Bin::Add, x.get(), *at, y.get()),
        Expr::Sub(x, at, y) => Node::Binary(Bin::Sub, x.get(), *at, y.get()),
        Expr::Mul(x, at, y) => Node::Binary(Bin::Mul, x.get(), *at, y.get()),
    }
}
