//! The numbers in the statements of expressions.

ghost use Rattle.std.specs.Prelude.{◌≡◌, ◌<◌, ◌≤◌, [], ◌∷◌, ◌++◌, pos, length, OnOk};
ghost use Rattle.ir_core.specs.Operator.{wrap};
ghost use Rattle.c_flat.specs.Written.{Falls};
ghost use Rattle.c_flat.specs.Sorts.{term_at, terms_at};
ghost use Rattle.c_counted.specs.Counted.{numbers, arguments_numbers, step_numbers};
ghost use Rattle.c_tally.specs.Put.{Put};

use crate::read::{term_of, terms_of};
use c_flat::{Node, TermNode};
use nk_base::{Memory, Ty, wrap};

/// A number of the source, wrapped to n bits.
fn wrapped(n: u32, z: u64) -> i64
    requires low { 16 ≤ n }
    requires high { n ≤ 32 }
    ensures { result ≡ wrap n (pos z) }
{
    wrap(Ty::Int(n), i128::from(z)) as i64
}

/// Puts a number behind the others, wrapped to n bits. The one error is want of memory.
fn push_number(n: u32, z: u64, out: &mut Vec<i64>) -> Result<(), Memory>
    requires low { 16 ≤ n }
    requires high { n ≤ 32 }
    ensures { OnOk result (Put n out.old.items out.new.items (z ∷ [])) }
{
    out.push(wrapped(n, z))?;
    Ok(())
}

/// Puts the numbers of an expression behind the others. The one error is want of memory.
#[cycle(numbers)]
pub(crate) fn push_term(nodes: &[Node], e: usize, n: u32, out: &mut Vec<i64>) -> Result<(), Memory>
    requires falls { Falls nodes.now }
    requires within { e < length nodes.now }
    requires low { 16 ≤ n }
    requires high { n ≤ 32 }
    ensures { OnOk result (Put n out.old.items out.new.items (numbers (term_at nodes.now e))) }
{
    match term_of(nodes, e) {
        TermNode::Number(z) => push_number(n, z, out),
        TermNode::Scalar(_) => Ok(()),
        TermNode::Element(_, _, i) => push_term(nodes, i, n, out),
        TermNode::Input => Ok(()),
        TermNode::Call(_, xs) => push_arguments(nodes, xs, n, out),
        TermNode::Unary(_, x) => push_term(nodes, x, n, out),
        TermNode::Shifted(_, x, _) => push_term(nodes, x, n, out),
        TermNode::Arithmetic(_, x, y) => push_both(nodes, x, y, n, out),
        TermNode::Compare(_, x, y) => push_both(nodes, x, y, n, out),
        TermNode::Not(x) => push_term(nodes, x, n, out),
        TermNode::AndAlso(x, y) => push_both(nodes, x, y, n, out),
        TermNode::OrElse(x, y) => push_both(nodes, x, y, n, out),
    }
}

/// Puts the numbers of two expressions behind the others. The one error is want of memory.
#[cycle(numbers)]
pub(crate) fn push_both(
    nodes: &[Node],
    x: usize,
    y: usize,
    n: u32,
    out: &mut Vec<i64>,
) -> Result<(), Memory>
    requires falls { Falls nodes.now }
    requires first { x < length nodes.now }
    requires second { y < length nodes.now }
    requires low { 16 ≤ n }
    requires high { n ≤ 32 }
    ensures { OnOk result (Put n out.old.items out.new.items (numbers (term_at nodes.now x) ++ numbers (term_at nodes.now y))) }
{
    push_term(nodes, x, n, out)?;
    push_term(nodes, y, n, out)
}

/// Puts the numbers of arguments behind the others. The one error is want of memory.
#[cycle(numbers)]
pub(crate) fn push_arguments(
    nodes: &[Node],
    xs: usize,
    n: u32,
    out: &mut Vec<i64>,
) -> Result<(), Memory>
    requires falls { Falls nodes.now }
    requires within { xs < length nodes.now }
    requires low { 16 ≤ n }
    requires high { n ≤ 32 }
    ensures { OnOk result (Put n out.old.items out.new.items (arguments_numbers (terms_at nodes.now xs))) }
{
    let mut rest = xs;
    while let Some((x, behind)) = terms_of(nodes, rest) {
        push_term(nodes, x, n, out)?;
        rest = behind;
    }
    Ok(())
}

/// Puts the numbers in the steps of an expression whose value is dropped behind the others. The one error is want of memory.
pub(crate) fn push_steps(nodes: &[Node], e: usize, n: u32, out: &mut Vec<i64>) -> Result<(), Memory>
    requires falls { Falls nodes.now }
    requires within { e < length nodes.now }
    requires low { 16 ≤ n }
    requires high { n ≤ 32 }
    ensures { OnOk result (Put n out.old.items out.new.items (step_numbers (term_at nodes.now e))) }
{
    match term_of(nodes, e) {
        TermNode::Number(_) => Ok(()),
        TermNode::Scalar(_) => Ok(()),
        TermNode::Element(_, _, i) => push_term(nodes, i, n, out),
        TermNode::Input => Ok(()),
        TermNode::Call(_, xs) => push_arguments(nodes, xs, n, out),
        TermNode::Unary(_, x) => push_steps(nodes, x, n, out),
        TermNode::Shifted(_, x, _) => push_steps(nodes, x, n, out),
        TermNode::Arithmetic(_, x, y) => {
            push_steps(nodes, x, n, out)?;
            push_steps(nodes, y, n, out)
        }
        TermNode::Compare(_, x, y) => push_both(nodes, x, y, n, out),
        TermNode::Not(x) => push_term(nodes, x, n, out),
        TermNode::AndAlso(x, y) => push_both(nodes, x, y, n, out),
        TermNode::OrElse(x, y) => push_both(nodes, x, y, n, out),
    }
}
