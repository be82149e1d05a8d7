//! The node at the top of an expression, operators of a kind in one.

ghost use Rattle.attr_eval.specs.Node.{AreLess, IsNode};
ghost use Rattle.nml_tree.specs.Depth.{depth};
ghost use Rattle.nml_tree.specs.Formula.{formula};

use nml_tree::{Bin, Expr, Name, Size};

/// An expression's top, with what stands below it. The form is this project's own.
#[derive(Clone, Copy)]
pub enum Node<'e> {
    Numeral(u64),
    Truth(bool),
    Named(&'e Name),
    Indexed(&'e Name, &'e Expr),
    Paren(&'e Expr),
    Int(&'e Size, &'e Expr),
    Card(&'e Size, &'e Expr),
    Sat(&'e Size, &'e Expr),
    Bits(&'e Expr, &'e Size, &'e Size),
    Choose(&'e Expr, &'e Expr, &'e Expr),
    Neg(&'e Expr),
    Inv(&'e Expr),
    Not(&'e Expr),
    Binary(Bin, &'e Expr, &'e Expr),
}

/// The node at the top. It takes no memory. The rule is this project's own.
#[tactic(auto, using(nml_tree::proofs::FormulaLaws::formula_laws))]
pub fn top(e: &Expr) -> Node<'_>
    ensures is { IsNode result (formula e.now) }
    ensures less { AreLess result (depth (formula e.now)) }
{
    match e {
        Expr::Number(n) => Node::Numeral(n.value),
        Expr::True(_) => Node::Truth(true),
        Expr::False(_) => Node::Truth(false),
        Expr::Name(n, index) => match index {
            None => Node::Named(n),
            Some((_, i, _)) => Node::Indexed(n, i.get()),
        },
        Expr::Paren(_, x, _) => Node::Paren(x.get()),
        Expr::Int(_, _, n, _, x, _) => Node::Int(n, x.get()),
        Expr::Card(_, _, n, _, x, _) => Node::Card(n, x.get()),
        Expr::Sat(_, _, n, _, x, _) => Node::Sat(n, x.get()),
        Expr::Bits(_, _, x, _, hi, _, lo, _) => Node::Bits(x.get(), hi, lo),
        Expr::If(_, c, _, x, _, y, _) => Node::Choose(c.get(), x.get(), y.get()),
        Expr::Neg(_, x) => Node::Neg(x.get()),
        Expr::Inv(_, x) => Node::Inv(x.get()),
        Expr::Not(_, x) => Node::Not(x.get()),
        Expr::OrElse(x, _, y) => Node::Binary(Bin::OrElse, x.get(), y.get()),
        Expr::AndAlso(x, _, y) => Node::Binary(Bin::AndAlso, x.get(), y.get()),
        Expr::Or(x, _, y) => Node::Binary(Bin::Or, x.get(), y.get()),
        Expr::Xor(x, _, y) => Node::Binary(Bin::Xor, x.get(), y.get()),
        Expr::And(x, _, y) => Node::Binary(Bin::And, x.get(), y.get()),
        Expr::Eq(x, _, y) => Node::Binary(Bin::Eq, x.get(), y.get()),
        Expr::Ne(x, _, y) => Node::Binary(Bin::Ne, x.get(), y.get()),
        Expr::Lt(x, _, y) => Node::Binary(Bin::Lt, x.get(), y.get()),
        Expr::Le(x, _, y) => Node::Binary(Bin::Le, x.get(), y.get()),
        Expr::Gt(x, _, y) => Node::Binary(Bin::Gt, x.get(), y.get()),
        Expr::Ge(x, _, y) => Node::Binary(Bin::Ge, x.get(), y.get()),
        Expr::Shl(x, _, y) => Node::Binary(Bin::Shl, x.get(), y.get()),
        Expr::Shr(x, _, y) => Node::Binary(Bin::Shr, x.get(), y.get()),
        Expr::Add(x, _, y) => Node::Binary(Bin::Add, x.get(), y.get()),
        Expr::Sub(x, _, y) => Node::Binary(Bin::Sub, x.get(), y.get()),
        Expr::Mul(x, _, y) => Node::Binary(Bin::Mul, x.get(), y.get()),
    }
}
