//! The nodes of expressions.

ghost use Rattle.std.specs.Prelude.{◌≡◌, ◌<◌, ℕ, length, map, IfOk};
ghost use Rattle.c_tree.specs.Formula.{formula, further};
ghost use Rattle.c_tree.specs.Program.{Term, Terms, NoMore, More};
ghost use Rattle.c_tree.specs.Program as program;
ghost use Rattle.c_tree.specs.Resolve.{term, terms, called, element};
ghost use Rattle.c_tree.specs.Resolve as resolve;
ghost use Rattle.c_names.specs.Shown.{names};
ghost use Rattle.c_flat.specs.Written.{Written, OfTerm, OfTerms, Falls, IsBelow, Grew, one, written};
ghost use Rattle.c_flat.specs.Listing.{over};

use crate::chain::{Chain, push_list};
use crate::make::{called_node, element_node, scalar_node};
use crate::node::{Node, push_node};
use c_names::Scopes;
use c_tree::{Expr, Meaning};
use ir_core::{Arith, Prefix, Rel, Shift};
use nk_base::Memory;
use std::alloc::Global;

/// The number that an expression is, where it is written as one, and else 0.
#[tactic(auto, using(c_tree::proofs::FormulaLaws::formula_laws))]
fn amount(e: &Expr) -> u64
    ensures { result ≡ resolve.written (formula e.now) }
{
    match e {
        Expr::Number(number) => number.value,
        Expr::Name(_, index) => match index {
            None => 0,
            Some((_, _, _)) => 0,
        },
        Expr::Call(_, _, arguments, _) => match arguments {
            None => 0,
            Some((_, _)) => 0,
        },
        Expr::Paren(_, _, _) => 0,
        Expr::Neg(_, _) | Expr::Inv(_, _) | Expr::Not(_, _) => 0,
        Expr::OrElse(_, _, _)
        | Expr::AndAlso(_, _, _)
        | Expr::Or(_, _, _)
        | Expr::Xor(_, _, _)
        | Expr::And(_, _, _)
        | Expr::Eq(_, _, _)
        | Expr::Ne(_, _, _)
        | Expr::Lt(_, _, _)
        | Expr::Le(_, _, _)
        | Expr::Gt(_, _, _)
        | Expr::Ge(_, _, _)
        | Expr::Shl(_, _, _)
        | Expr::Shr(_, _, _)
        | Expr::Add(_, _, _)
        | Expr::Sub(_, _, _)
        | Expr::Mul(_, _, _) => 0,
    }
}

/// The node of an expression with an operator, over the nodes of its parts.
#[tactic(auto, using(c_tree::proofs::FormulaLaws::formula_laws))]
fn over_node(e: &Expr, x: usize, y: usize) -> Node
    ensures is { (f : ℕ → Written) (s t : Term) → f x ≡ OfTerm s → f y ≡ OfTerm t → one result f ≡ OfTerm (over (formula e.now) s t) }
    ensures below { (n : ℕ) → x < n → y < n → IsBelow result n }
{
    match e {
        Expr::Neg(_, _) => Node::Unary(Prefix::Neg, x),
        Expr::Inv(_, _) => Node::Unary(Prefix::Not, x),
        Expr::Not(_, _) => Node::Not(x),
        Expr::OrElse(_, _, _) => Node::OrElse(x, y),
        Expr::AndAlso(_, _, _) => Node::AndAlso(x, y),
        Expr::Or(_, _, _) => Node::Arithmetic(Arith::Or, x, y),
        Expr::Xor(_, _, _) => Node::Arithmetic(Arith::Xor, x, y),
        Expr::And(_, _, _) => Node::Arithmetic(Arith::And, x, y),
        Expr::Eq(_, _, _) => Node::Compare(Rel::Eq, x, y),
        Expr::Ne(_, _, _) => Node::Compare(Rel::Ne, x, y),
        Expr::Lt(_, _, _) => Node::Compare(Rel::Lt, x, y),
        Expr::Le(_, _, _) => Node::Compare(Rel::Le, x, y),
        Expr::Gt(_, _, _) => Node::Compare(Rel::Gt, x, y),
        Expr::Ge(_, _, _) => Node::Compare(Rel::Ge, x, y),
        Expr::Shl(_, _, right) => Node::Shifted(Shift::Shl, x, amount(right.get())),
        Expr::Shr(_, _, right) => Node::Shifted(Shift::Shr, x, amount(right.get())),
        Expr::Add(_, _, _) => Node::Arithmetic(Arith::Add, x, y),
        Expr::Sub(_, _, _) => Node::Arithmetic(Arith::Sub, x, y),
        Expr::Mul(_, _, _) => Node::Arithmetic(Arith::Mul, x, y),
        Expr::Number(_) | Expr::Paren(_, _, _) => Node::Number(0),
        Expr::Name(_, index) => match index {
            None => Node::Number(0),
            Some((_, _, _)) => Node::Number(0),
        },
        Expr::Call(_, _, arguments, _) => match arguments {
            None => Node::Number(0),
            Some((_, _)) => Node::Number(0),
        },
    }
}

/// Puts the node of a call without arguments behind the others.
fn push_called(meaning: Option<Meaning>, nodes: &mut Vec<Node>) -> Result<usize, Memory>
    requires falls { Falls nodes.old.items }
    ensures { IfOk result (λ n. Grew nodes.old.items nodes.new.items (OfTerm (called meaning NoMore)) n) }
{
    let none = push_node(nodes, Node::NoMore)?;
    push_node(nodes, called_node(meaning, none))
}

/// Puts the node of a call behind the others, over the nodes of its first argument and of those behind it.
fn push_called_with(
    meaning: Option<Meaning>,
    first: usize,
    rest: usize,
    nodes: &mut Vec<Node>,
) -> Result<usize, Memory>
    requires falls { Falls nodes.old.items }
    requires first { first < length nodes.old.items }
    requires rest { rest < length nodes.old.items }
    ensures { IfOk result (λ n. (t : Term) (ts : Terms) → written nodes.old.items first ≡ OfTerm t → written nodes.old.items rest ≡ OfTerms ts → Grew nodes.old.items nodes.new.items (OfTerm (called meaning (More t ts))) n) }
{
    let all = push_node(nodes, Node::More(first, rest))?;
    push_node(nodes, called_node(meaning, all))
}

/// Puts the nodes of the expression behind the others. It calls itself as deep as the expression is.
///
/// The one error is want of memory.
#[cycle(expressions)]
#[tactic(auto, using(c_tree::proofs::FormulaLaws::formula_laws))]
pub fn push_expression(
    alloc: Global,
    scopes: &Scopes,
    e: &Expr,
    nodes: &mut Vec<Node>,
) -> Result<usize, Memory>
    requires falls { Falls nodes.old.items }
    ensures { IfOk result (λ n. Grew nodes.old.items nodes.new.items (OfTerm (term (names scopes.now) (formula e.now))) n) }
{
    match e {
        Expr::Number(number) => push_node(nodes, Node::Number(number.value)),
        Expr::Name(name, index) => match index {
            None => push_node(nodes, scalar_node(scopes.seen(&name.text))),
            Some((_, i, _)) => {
                let index = push_expression(alloc, scopes, i.get(), nodes)?;
                push_node(nodes, element_node(scopes.seen(&name.text), index))
            }
        },
        Expr::Call(name, _, arguments, _) => match arguments {
            None => push_called(scopes.callee(&name.text), nodes),
            Some((first, rest)) => {
                let others = rest.as_slice();
                let x = push_expression(alloc, scopes, first.get(), nodes)?;
                let xs = push_further(alloc, scopes, others, nodes)?;
                push_called_with(scopes.callee(&name.text), x, xs, nodes)
            }
        },
        Expr::Paren(_, x, _) => push_expression(alloc, scopes, x.get(), nodes),
        Expr::Neg(_, x) | Expr::Inv(_, x) | Expr::Not(_, x) => {
            let part = push_expression(alloc, scopes, x.get(), nodes)?;
            push_node(nodes, over_node(e, part, part))
        }
        Expr::OrElse(x, _, y)
        | Expr::AndAlso(x, _, y)
        | Expr::Or(x, _, y)
        | Expr::Xor(x, _, y)
        | Expr::And(x, _, y)
        | Expr::Eq(x, _, y)
        | Expr::Ne(x, _, y)
        | Expr::Lt(x, _, y)
        | Expr::Le(x, _, y)
        | Expr::Gt(x, _, y)
        | Expr::Ge(x, _, y)
        | Expr::Shl(x, _, y)
        | Expr::Shr(x, _, y)
        | Expr::Add(x, _, y)
        | Expr::Sub(x, _, y)
        | Expr::Mul(x, _, y) => {
            let left = push_expression(alloc, scopes, x.get(), nodes)?;
            let right = push_expression(alloc, scopes, y.get(), nodes)?;
            push_node(nodes, over_node(e, left, right))
        }
    }
}

/// Puts the nodes of further arguments behind the others.
#[cycle(expressions)]
#[tactic(auto, using(c_tree::proofs::FormulaLaws::formula_laws))]
pub fn push_further(
    alloc: Global,
    scopes: &Scopes,
    rest: &[(u32, Expr)],
    nodes: &mut Vec<Node>,
) -> Result<usize, Memory>
    requires falls { Falls nodes.old.items }
    ensures { IfOk result (λ n. Grew nodes.old.items nodes.new.items (OfTerms (terms (names scopes.now) (further (map (λ (comma, y). (comma, formula y)) rest.now)))) n) }
{
    let mut numbers = Vec::new(alloc);
    for (_, one) in rest {
        numbers.push(push_expression(alloc, scopes, one, nodes)?)?;
    }
    push_list(Chain::Arguments, numbers, nodes)
}
