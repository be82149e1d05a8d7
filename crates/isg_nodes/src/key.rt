//! What a node is found again by.

ghost use Rattle.std.specs.Prelude.{◌≡◌, IfSome, pos};
ghost use Rattle.isg_nodes.specs.Keys.{bin_at, node_of, un_at};

use crate::node::Node;
use nml_tree::{Bin, Un};

/// A node without lists, as numbers: its kind, its operator, and what else it has. The form is this project's own.
#[derive(Clone, Copy, PartialEq, Eq, Hash)]
pub struct Key {
    kind: u8,
    operator: u8,
    number: i128,
    first: u32,
    second: u32,
    third: u32,
}

/// The key of a node; `None` where it has lists.
pub fn key_of(x: &Node) -> Option<Key>
    ensures { IfSome result (λ k. node_of k ≡ x.now) }
{
    match x {
        Node::Number(z) => Some(Key {
            number: *z,
            ..plain(0, 0, 0, 0)
        }),
        Node::Field(n) => Some(plain(1, *n, 0, 0)),
        Node::Cell(n, i) => Some(plain(2, *n, *i, 0)),
        Node::Trn(n) => Some(plain(3, *n, 0, 0)),
        Node::Inp => Some(plain(4, 0, 0, 0)),
        Node::Unary(op, x) => {
            let (operator, second, third) = un_parts(*op);
            Some(Key {
                operator,
                ..plain(5, *x, second, third)
            })
        }
        Node::Binary(op, x, y) => Some(Key {
            operator: bin_number(*op),
            ..plain(6, *x, *y, 0)
        }),
        Node::Choose(c, x, y) => Some(plain(7, *c, *x, *y)),
        Node::SetCell(n, i, e) => Some(plain(8, *n, *i, *e)),
        Node::SetTrn(n, e) => Some(plain(9, *n, *e, 0)),
        Node::Put(e) => Some(plain(10, *e, 0, 0)),
        Node::Halt(e) => Some(plain(11, *e, 0, 0)),
        Node::When(_, _, _) => None,
    }
}

/// A key of this kind, with up to three numbers.
fn plain(kind: u8, first: u32, second: u32, third: u32) -> Key
    ensures { result ≡ record { kind = kind; operator = 0; number = pos 0; first = first; second = second; third = third } }
{
    Key {
        kind,
        operator: 0,
        number: 0,
        first,
        second,
        third,
    }
}

/// The number of an operator, and its sizes.
fn un_parts(op: Un) -> (u8, u32, u32)
    ensures { un_at result.0 result.1 result.2 ≡ op }
{
    match op {
        Un::Neg => (0, 0, 0),
        Un::Inv => (1, 0, 0),
        Un::Not => (2, 0, 0),
        Un::Int(n) => (3, n, 0),
        Un::Card(n) => (4, n, 0),
        Un::Sat(n) => (5, n, 0),
        Un::Bits(hi, lo) => (6, hi, lo),
    }
}

/// The number of an operator.
fn bin_number(op: Bin) -> u8
    ensures { bin_at result ≡ op }
{
    match op {
        Bin::OrElse => 0,
        Bin::AndAlso => 1,
        Bin::Or => 2,
        Bin::Xor => 3,
        Bin::And => 4,
        Bin::Eq => 5,
        Bin::Ne => 6,
        Bin::Lt => 7,
        Bin::Le => 8,
        Bin::Gt => 9,
        Bin::Ge => 10,
        Bin::Shl => 11,
        Bin::Shr => 12,
        Bin::Add => 13,
        Bin::Sub => 14,
        Bin::Mul => 15,
    }
}
