//! The field that an action jumps by.

ghost use Rattle.std.specs.Prelude.{◌≡◌, ◌<◌, length};
ghost use Rattle.isg_nodes.specs.Written.{AllBelow, Falls, action, statement, term};
ghost use Rattle.isg_places.specs.Places as spec;
ghost use Rattle.nml_tree.specs.Act as act;

use crate::found::Found;
use crate::pc::values;
use crate::term::{field_number, is_next};
use isg_nodes::{Node, node_at};

/// The field that the action's one write of PC, the storage of this number, assigns: alone, or as the one side of an `if` expression whose
/// other side is `PC + 1`, written so.
///
/// It is `None` exactly where there is no such field: where the action written out doesn't write PC, or writes it more than once (in
/// whichever sides of `if` statements), or where the value is of another form. It takes no memory. The rule is this project's own.
pub fn jump_field(nodes: &[Node], effect: &[u32], pc: u32) -> Option<u32>
    requires falls { Falls nodes.now }
    requires within { AllBelow effect.now (length nodes.now) }
    ensures { result ≡ spec.jump_field pc (action nodes.now effect.now) }
{
    match values(nodes, effect, pc) {
        Found::Nothing => None,
        Found::One(e) => value_field(nodes, e, pc),
        Found::More => None,
    }
}

/// The field that the value of PC is.
fn value_field(nodes: &[Node], n: u32, pc: u32) -> Option<u32>
    requires falls { Falls nodes.now }
    requires within { n < length nodes.now }
    ensures { result ≡ spec.value_field pc (term nodes.now n) }
{
    match node_at(nodes, n) {
        Node::Field(k) => Some(*k),
        Node::Choose(_, x, y) => {
            if is_next(nodes, *y, pc) {
                field_number(nodes, *x)
            } else if is_next(nodes, *x, pc) {
                field_number(nodes, *y)
            } else {
                None
            }
        }
        Node::Number(_) => None,
        Node::Cell(_, _) => None,
        Node::Trn(_) => None,
        Node::Inp => None,
        Node::Unary(_, _) => None,
        Node::Binary(_, _, _) => None,
        Node::SetCell(_, _, _) => None,
        Node::SetTrn(_, _) => None,
        Node::Put(_) => None,
        Node::Halt(_) => None,
        Node::When(_, _, _) => None,
    }
}
