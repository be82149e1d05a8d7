//! The values that an action assigns to PC.

ghost use Rattle.std.specs.Prelude.{◌<◌, ◌++◌, ◌==◌, if◌then◌else◌, [], ◌∷◌, List, length};
ghost use Rattle.isg_nodes.specs.declared.node.Node.{Node};
ghost use Rattle.isg_nodes.specs.Written.{AllBelow, Falls, action, statement, term};
ghost use Rattle.isg_places.specs.Found.{IsFound};
ghost use Rattle.isg_places.specs.Places.{pc_values};
ghost use Rattle.nml_tree.specs.Act as act;

use crate::found::Found;
use isg_nodes::{Node, node_at};

/// What the one and then the other has.
fn joined(a: Found, b: Found) -> Found
    ensures { (nodes : List Node) (xs ys : List act.Term) → IsFound nodes a xs → IsFound nodes b ys → IsFound nodes result (xs ++ ys) }
{
    match a {
        Found::Nothing => b,
        Found::One(_) => match b {
            Found::Nothing => a,
            Found::One(_) => Found::More,
            Found::More => Found::More,
        },
        Found::More => Found::More,
    }
}

/// The value of a write of the storage of number `k`.
fn value_of(k: u32, e: u32, pc: u32) -> Found
    ensures { (nodes : List Node) → e < length nodes → IsFound nodes result (if k == pc then term nodes e ∷ [] else []) }
{
    if k == pc {
        Found::One(e)
    } else {
        Found::Nothing
    }
}

/// The values that statements in order assign to PC, the storage of this number.
#[cycle(values)]
pub fn values(nodes: &[Node], effect: &[u32], pc: u32) -> Found
    requires falls { Falls nodes.now }
    requires within { AllBelow effect.now (length nodes.now) }
    ensures { IsFound nodes.now result (pc_values pc (action nodes.now effect.now)) }
{
    let mut found = Found::Nothing;
    for m in effect {
        found = joined(found, statement_values(nodes, *m, pc));
    }
    found
}

/// Those that the statement of this node assigns.
#[cycle(values)]
fn statement_values(nodes: &[Node], n: u32, pc: u32) -> Found
    requires falls { Falls nodes.now }
    requires within { n < length nodes.now }
    ensures { IsFound nodes.now result (pc_values pc (statement nodes.now n act.Done)) }
{
    match node_at(nodes, n) {
        Node::SetCell(k, _, e) => value_of(*k, *e, pc),
        Node::When(_, xs, ys) => joined(
            values(nodes, xs.as_slice(), pc),
            values(nodes, ys.as_slice(), pc),
        ),
        Node::Number(_) => Found::Nothing,
        Node::Field(_) => Found::Nothing,
        Node::Cell(_, _) => Found::Nothing,
        Node::Trn(_) => Found::Nothing,
        Node::Inp => Found::Nothing,
        Node::Unary(_, _) => Found::Nothing,
        Node::Binary(_, _, _) => Found::Nothing,
        Node::Choose(_, _, _) => Found::Nothing,
        Node::SetTrn(_, _) => Found::Nothing,
        Node::Put(_) => Found::Nothing,
        Node::Halt(_) => Found::Nothing,
    }
}
