//! The cells that indices are, and what expressions read of the input.

ghost use Rattle.std.specs.Prelude.{◌≡◌, ◌<◌, length, option_map, unsigned_abs};
ghost use Rattle.attr_eval.specs.Alone.{alone};
ghost use Rattle.attr_legal.specs.Tally as tally;
ghost use Rattle.isg_legal.specs.Known.{IndexFits, cell_in, constant, number_of, sides};
ghost use Rattle.isg_nodes.specs.Narrow.{IsNarrow};
ghost use Rattle.isg_nodes.specs.Written.{Falls, term};

use crate::key::{greater, together};
use attr_eval::{binary, is_zero, unary};
use isg_nodes::{Fields, Node, node_at};

/// The number of the cell that the index of this node is, where it is known: where the fields are put in that of a constant, and else
/// a written number.
pub fn index(nodes: &[Node], n: u32, fields: &Fields<'_>, put_in: bool) -> Option<u128>
    requires falls { Falls nodes.now }
    requires within { n < length nodes.now }
    ensures { IndexFits put_in fields.now (term nodes.now n) → result ≡ cell_in put_in fields.now (term nodes.now n) }
{
    if put_in {
        cell_of(value(nodes, n, fields))
    } else {
        written(nodes, n)
    }
}

/// The number of the cell of this index.
fn cell_of(z: Option<i128>) -> Option<u128>
    ensures { result ≡ option_map unsigned_abs z }
{
    match z {
        None => None,
        Some(z) => Some(z.unsigned_abs()),
    }
}

/// The number of the cell, where the index is a written number.
fn written(nodes: &[Node], n: u32) -> Option<u128>
    requires falls { Falls nodes.now }
    requires within { n < length nodes.now }
    ensures { result ≡ number_of (term nodes.now n) }
{
    match node_at(nodes, n) {
        Node::Number(z) => Some(z.unsigned_abs()),
        Node::Field(_) => None,
        Node::Cell(_, _) => None,
        Node::Trn(_) => None,
        Node::Inp => None,
        Node::Unary(_, _) => None,
        Node::Binary(_, _, _) => None,
        Node::Choose(_, _, _) => None,
        Node::SetCell(_, _, _) => Some(0),
        Node::SetTrn(_, _) => Some(0),
        Node::Put(_) => Some(0),
        Node::Halt(_) => Some(0),
        Node::When(_, _, _) => Some(0),
    }
}

/// The value of the expression of this node, where it is constant.
fn value(nodes: &[Node], n: u32, fields: &Fields<'_>) -> Option<i128>
    requires falls { Falls nodes.now }
    requires within { n < length nodes.now }
    ensures { IsNarrow (alone fields.now) (term nodes.now n) → result ≡ constant (alone fields.now) (term nodes.now n) }
{
    match node_at(nodes, n) {
        Node::Number(z) => Some(*z),
        Node::Field(k) => Some(fields.number(*k)),
        Node::Cell(_, _) => None,
        Node::Trn(_) => None,
        Node::Inp => None,
        Node::Unary(op, x) => match value(nodes, *x, fields) {
            None => None,
            Some(z) => Some(unary(*op, z)),
        },
        Node::Binary(op, x, y) => match value(nodes, *x, fields) {
            None => None,
            Some(u) => match value(nodes, *y, fields) {
                None => None,
                Some(w) => Some(binary(*op, u, w)),
            },
        },
        Node::Choose(c, x, y) => {
            let condition = value(nodes, *c, fields);
            let some = value(nodes, *x, fields);
            let other = value(nodes, *y, fields);
            side(condition, some, other)
        }
        Node::SetCell(_, _, _) => Some(0),
        Node::SetTrn(_, _) => Some(0),
        Node::Put(_) => Some(0),
        Node::Halt(_) => Some(0),
        Node::When(_, _, _) => Some(0),
    }
}

/// The side that is chosen, where both and the condition are known.
fn side(condition: Option<i128>, some: Option<i128>, other: Option<i128>) -> Option<i128>
    ensures { result ≡ sides condition some other }
{
    match condition {
        None => None,
        Some(z) => match some {
            None => None,
            Some(u) => match other {
                None => None,
                Some(w) => Some(if is_zero(z) { w } else { u }),
            },
        },
    }
}

/// How often the input is read in the expression of this node.
pub fn reads(nodes: &[Node], n: u32) -> u8
    requires falls { Falls nodes.now }
    requires within { n < length nodes.now }
    ensures { result ≡ tally.reads 0 1 (term nodes.now n) }
{
    match node_at(nodes, n) {
        Node::Number(_) => 0,
        Node::Field(_) => 0,
        Node::Cell(_, i) => reads(nodes, *i),
        Node::Trn(_) => 0,
        Node::Inp => 1,
        Node::Unary(_, x) => reads(nodes, *x),
        Node::Binary(_, x, y) => together(reads(nodes, *x), reads(nodes, *y)),
        Node::Choose(c, x, y) => {
            let first = reads(nodes, *c);
            let some = reads(nodes, *x);
            let other = reads(nodes, *y);
            together(first, greater(some, other))
        }
        Node::SetCell(_, _, _) => 0,
        Node::SetTrn(_, _) => 0,
        Node::Put(_) => 0,
        Node::Halt(_) => 0,
        Node::When(_, _, _) => 0,
    }
}
