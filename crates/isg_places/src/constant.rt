//! What an expression is worth by the fields alone.

ghost use Rattle.std.specs.Prelude.{◌≡◌, ◌<◌, if◌then◌else◌, is_some, length};
ghost use Rattle.attr_eval.specs.Alone.{alone};
ghost use Rattle.isg_nodes.specs.Narrow.{IsNarrow};
ghost use Rattle.isg_nodes.specs.Written.{Falls, term};
ghost use Rattle.isg_places.specs.Constant.{constant};
ghost use Rattle.nml_tree.specs.Legal.{is_constant};
ghost use Rattle.nml_tree.specs.Value.{is_true};

use attr_eval::{binary, is_zero, unary};
use isg_nodes::{Fields, Node, node_at};

/// The value of the expression of this node for these fields; `None` exactly where it reads a storage, a transitory or the input.
///
/// It says the value wherever 128 bits hold the value of each expression in it. It takes no memory. The rule is this project's own.
pub fn constant_at(nodes: &[Node], n: u32, fields: &Fields<'_>) -> Option<i128>
    requires falls { Falls nodes.now }
    requires within { n < length nodes.now }
    ensures some { is_some result ≡ is_constant (term nodes.now n) }
    ensures value { IsNarrow (alone fields.now) (term nodes.now n) → result ≡ constant fields.now (term nodes.now n) }
{
    match node_at(nodes, n) {
        Node::Number(z) => Some(*z),
        Node::Field(k) => Some(fields.number(*k)),
        Node::Cell(_, _) => None,
        Node::Trn(_) => None,
        Node::Inp => None,
        Node::Unary(op, x) => {
            let z = constant_at(nodes, *x, fields)?;
            Some(unary(*op, z))
        }
        Node::Binary(op, x, y) => {
            let u = constant_at(nodes, *x, fields)?;
            let w = constant_at(nodes, *y, fields)?;
            Some(binary(*op, u, w))
        }
        Node::Choose(c, x, y) => {
            let z = constant_at(nodes, *c, fields)?;
            let u = constant_at(nodes, *x, fields)?;
            let w = constant_at(nodes, *y, fields)?;
            Some(pick(z, u, w))
        }
        Node::SetCell(_, _, _) => Some(0),
        Node::SetTrn(_, _) => Some(0),
        Node::Put(_) => Some(0),
        Node::Halt(_) => Some(0),
        Node::When(_, _, _) => Some(0),
    }
}

/// The first where the condition's value is true.
fn pick(z: i128, u: i128, w: i128) -> i128
    ensures { result ≡ (if is_true z then u else w) }
{
    if is_zero(z) { w } else { u }
}
