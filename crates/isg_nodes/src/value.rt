//! The value of an expression by its node.

ghost use Rattle.std.specs.Int.{w128};
ghost use Rattle.std.specs.Prelude.{◌≡◌, ◌<◌, ◌||◌, FitsSigned, Some, if◌then◌else◌, length, pos, slice_get, unsigned_abs, unwrap_or};
ghost use Rattle.attr_exec.specs.Seen.{view};
ghost use Rattle.isg_nodes.specs.Narrow.{IsNarrow, IsWorth};
ghost use Rattle.isg_nodes.specs.Written.{Falls, IsBelow, one_act, one_term, statement, term};
ghost use Rattle.nml_tree.specs.Act.{Done};
ghost use Rattle.nml_tree.specs.Value.{cell, is_true, number_at};

use crate::fields::Fields;
use crate::node::Node;
use attr_eval::{binary, is_zero, unary};
use nml_state::State;

/// The node of this number, and what it writes out. It takes no memory. The rule is this project's own.
pub fn node_at(nodes: &[Node], n: u32) -> &Node
    requires falls { Falls nodes.now }
    requires within { n < length nodes.now }
    ensures below { IsBelow result.now n }
    ensures value { term nodes.now n ≡ one_term result.now (term nodes.now) }
    ensures act { statement nodes.now n Done ≡ one_act result.now (term nodes.now) (statement nodes.now) Done }
{
    get(nodes, n)
}

fn get(nodes: &[Node], n: u32) -> &Node
    requires { n < length nodes.now }
    ensures { slice_get nodes.now n ≡ Some result.now }
{
    &nodes[n as usize]
}

/// The value of the expression of this node for these fields, what the state holds and the next input, and whether the input is read on
/// the way to it.
///
/// It says so wherever 128 bits hold the value of each expression in it. It takes no memory. The rule is this project's own.
pub fn value_at(
    nodes: &[Node],
    n: u32,
    fields: &Fields<'_>,
    s: &State,
    next: Option<i64>,
) -> (i128, bool)
    requires falls { Falls nodes.now }
    requires within { n < length nodes.now }
    ensures { IsNarrow (view fields.now s.now next) (term nodes.now n) → IsWorth (view fields.now s.now next) (term nodes.now n) result.0 result.1 }
{
    match node_at(nodes, n) {
        Node::Number(z) => (*z, false),
        Node::Field(k) => (fields.number(*k), false),
        Node::Cell(k, i) => {
            let (z, took) = value_at(nodes, *i, fields, s, next);
            (cell(s, *k, z), took)
        }
        Node::Trn(k) => (trn(s, *k), false),
        Node::Inp => (input(next), true),
        Node::Unary(op, x) => {
            let (z, took) = value_at(nodes, *x, fields, s, next);
            (unary(*op, z), took)
        }
        Node::Binary(op, x, y) => {
            let (u, a) = value_at(nodes, *x, fields, s, next);
            let (w, b) = value_at(nodes, *y, fields, s, next);
            (binary(*op, u, w), either(a, b))
        }
        Node::Choose(c, x, y) => {
            let (z, a) = value_at(nodes, *c, fields, s, next);
            let (w, b) = value_at(nodes, pick(z, *x, *y), fields, s, next);
            (w, either(a, b))
        }
        Node::SetCell(_, _, _) => (0, false),
        Node::SetTrn(_, _) => (0, false),
        Node::Put(_) => (0, false),
        Node::Halt(_) => (0, false),
        Node::When(_, _, _) => (0, false),
    }
}

/// What the cell holds.
fn cell(s: &State, storage: u32, index: i128) -> i128
    ensures { result ≡ cell s.now.cells storage (unsigned_abs index) }
{
    s.read(storage as usize, index.unsigned_abs())
}

/// What the transitory holds.
fn trn(s: &State, n: u32) -> i128
    ensures { result ≡ number_at s.now.trns n }
{
    s.read_trn(n as usize)
}

/// The next input; 0 where there is none.
fn input(next: Option<i64>) -> i128
    ensures { result ≡ unwrap_or next (pos 0) }
{
    match next {
        None => 0,
        Some(z) => z as i128,
    }
}

/// The first where the condition's value is true.
fn pick(z: i128, x: u32, y: u32) -> u32
    ensures { result ≡ (if is_true z then x else y) }
{
    if is_zero(z) { y } else { x }
}

fn either(a: bool, b: bool) -> bool
    ensures { result ≡ a || b }
{
    a || b
}
