//! The forms of expressions, by their nodes.

ghost use Rattle.std.specs.Prelude.{◌≡◌, ◌<◌, ◌-ℤ◌, false, length, pos};
ghost use Rattle.isg_nodes.specs.Written.{Falls, term};
ghost use Rattle.isg_places.specs.Places as spec;
ghost use Rattle.nml_tree.specs.Value.{is_zero};

use isg_nodes::{Node, node_at};
use nml_tree::Bin;

/// The number of the field that the expression is.
pub fn field_number(nodes: &[Node], n: u32) -> Option<u32>
    requires falls { Falls nodes.now }
    requires within { n < length nodes.now }
    ensures { result ≡ spec.field_number (term nodes.now n) }
{
    match node_at(nodes, n) {
        Node::Field(k) => Some(*k),
        Node::Number(_) => None,
        Node::Cell(_, _) => None,
        Node::Trn(_) => None,
        Node::Inp => None,
        Node::Unary(_, _) => None,
        Node::Binary(_, _, _) => None,
        Node::Choose(_, _, _) => None,
        Node::SetCell(_, _, _) => None,
        Node::SetTrn(_, _) => None,
        Node::Put(_) => None,
        Node::Halt(_) => None,
        Node::When(_, _, _) => None,
    }
}

/// The number that the expression is, as written.
pub fn number_of(nodes: &[Node], n: u32) -> Option<i128>
    requires falls { Falls nodes.now }
    requires within { n < length nodes.now }
    ensures { result ≡ spec.written_number (term nodes.now n) }
{
    match node_at(nodes, n) {
        Node::Number(z) => Some(*z),
        Node::Field(_) => None,
        Node::Cell(_, _) => None,
        Node::Trn(_) => None,
        Node::Inp => None,
        Node::Unary(_, _) => None,
        Node::Binary(_, _, _) => None,
        Node::Choose(_, _, _) => None,
        Node::SetCell(_, _, _) => Some(0),
        Node::SetTrn(_, _) => Some(0),
        Node::Put(_) => Some(0),
        Node::Halt(_) => Some(0),
        Node::When(_, _, _) => Some(0),
    }
}

/// Whether the expression is this number, as written.
fn is_number(nodes: &[Node], n: u32, k: u8) -> bool
    requires falls { Falls nodes.now }
    requires within { n < length nodes.now }
    ensures { result ≡ spec.is_number k (term nodes.now n) }
{
    match number_of(nodes, n) {
        None => false,
        Some(z) => is_same(z, i128::from(k)),
    }
}

fn is_same(x: i128, y: i128) -> bool
    ensures { result ≡ is_zero (x -ℤ y) }
{
    x == y
}

/// Whether the expression is PC, the one cell of the storage of this number.
fn is_pc(nodes: &[Node], n: u32, pc: u32) -> bool
    requires falls { Falls nodes.now }
    requires within { n < length nodes.now }
    ensures { result ≡ spec.is_pc pc (term nodes.now n) }
{
    match node_at(nodes, n) {
        Node::Cell(k, i) => *k == pc && is_number(nodes, *i, 0),
        Node::Number(_) => false,
        Node::Field(_) => false,
        Node::Trn(_) => false,
        Node::Inp => false,
        Node::Unary(_, _) => false,
        Node::Binary(_, _, _) => false,
        Node::Choose(_, _, _) => false,
        Node::SetCell(_, _, _) => false,
        Node::SetTrn(_, _) => false,
        Node::Put(_) => false,
        Node::Halt(_) => false,
        Node::When(_, _, _) => false,
    }
}

/// Whether the expression is `PC + 1`.
pub fn is_next(nodes: &[Node], n: u32, pc: u32) -> bool
    requires falls { Falls nodes.now }
    requires within { n < length nodes.now }
    ensures { result ≡ spec.is_next pc (term nodes.now n) }
{
    match node_at(nodes, n) {
        Node::Binary(op, x, y) => { is_add(*op) && is_pc(nodes, *x, pc) && is_number(nodes, *y, 1) }
        Node::Number(_) => false,
        Node::Field(_) => false,
        Node::Cell(_, _) => false,
        Node::Trn(_) => false,
        Node::Inp => false,
        Node::Unary(_, _) => false,
        Node::Choose(_, _, _) => false,
        Node::SetCell(_, _, _) => false,
        Node::SetTrn(_, _) => false,
        Node::Put(_) => false,
        Node::Halt(_) => false,
        Node::When(_, _, _) => false,
    }
}

fn is_add(op: Bin) -> bool
    ensures { result ≡ spec.is_add op }
{
    match op {
        Bin::Add => true,
        Bin::OrElse => false,
        Bin::AndAlso => false,
        Bin::Or => false,
        Bin::Xor => false,
        Bin::And => false,
        Bin::Eq => false,
        Bin::Ne => false,
        Bin::Lt => false,
        Bin::Le => false,
        Bin::Gt => false,
        Bin::Ge => false,
        Bin::Shl => false,
        Bin::Shr => false,
        Bin::Sub => false,
        Bin::Mul => false,
    }
}
