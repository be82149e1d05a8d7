//! One statement, its parts aside, written out as a node.

ghost use Rattle.std.specs.Prelude.{◌≡◌, ◌<◌, IfOk, IfSome, length};
ghost use Rattle.isg_nodes.specs.Written.{AllBelow, Falls, IsBelow, term};
ghost use Rattle.isg_written.specs.Apt.{IsRead};
ghost use Rattle.isg_written.specs.Found.{Grows, Indexes, Is, IsWithin, here};
ghost use Rattle.isg_written.specs.Puts.{Adds, Pushes, set_by};
ghost use Rattle.nml_tree.specs.Act as act;
ghost use Rattle.nml_tree.specs.Act.{Act, Term, assigned};
ghost use Rattle.nml_tree.specs.Block.{index};
ghost use Rattle.nml_tree.specs.Formula.{formula};
ghost use Rattle.nml_tree.specs.Refused.{IsTyped};
ghost use Rattle.nml_tree.specs.Written as written;
ghost use Rattle.nml_tree.specs.Written.{index_term, reference};
ghost use Rattle.nml_widths.specs.Fitting.{EachIndex};

use crate::expression::{named, operand};
use crate::found::Found;
use crate::front::Front;
use indexmap::IndexMap;
use isg_nodes::{Key, Node, add, node_at};
use nk_base::Memory;
use nml_tree::{Expr, Place};

/// The index of the place, where it has one.
fn index_of(
    front: Front<'_, '_>,
    place: &Place,
    nodes: &mut Vec<Node>,
    known: &mut IndexMap<Key, u32>,
) -> Result<Option<u32>, Memory>
    requires typed { IsTyped front.numbered.now }
    requires falls { Falls nodes.old.items }
    ensures grows { Grows nodes.old.items nodes.new.items }
    ensures found { IfOk result (λ r. Indexes front.entry nodes.new.items r (index place.now.index)) }
{
    match &place.index {
        None => Ok(None),
        Some((_, i, _)) => {
            let n = operand(front, i, nodes, known)?;
            Ok(Some(n))
        }
    }
}

/// The node that gives the place the value of a node; `None` where it is no place.
fn setting(nodes: &[Node], target: Found, value: u32) -> Option<Node>
    requires falls { Falls nodes.now }
    requires target { IsWithin target (length nodes.now) }
    requires value { value < length nodes.now }
    ensures below { IfSome result (λ x. IsBelow x (length nodes.now)) }
    ensures set { (t : Term) → Is nodes.now target t → (rest : Act) → assigned t (term nodes.now value) rest ≡ set_by nodes.now result rest }
{
    match target {
        Found::Out => Some(Node::Put(value)),
        Found::At(n) => match node_at(nodes, n) {
            Node::Cell(k, i) => Some(Node::SetCell(*k, *i, value)),
            Node::Trn(k) => Some(Node::SetTrn(*k, value)),
            Node::Number(_) => None,
            Node::Field(_) => None,
            Node::Inp => None,
            Node::Unary(_, _) => None,
            Node::Binary(_, _, _) => None,
            Node::Choose(_, _, _) => None,
            Node::SetCell(_, _, _) => None,
            Node::SetTrn(_, _) => None,
            Node::Put(_) => None,
            Node::Halt(_) => None,
            Node::When(_, _, _) => None,
        },
    }
}

/// Puts the statement behind those in the list.
pub fn push(
    x: Node,
    list: &mut Vec<u32>,
    nodes: &mut Vec<Node>,
    known: &mut IndexMap<Key, u32>,
) -> Result<(), Memory>
    requires falls { Falls nodes.old.items }
    requires below { IsBelow x (length nodes.old.items) }
    requires list { AllBelow list.old.items (length nodes.old.items) }
    ensures grows { Grows nodes.old.items nodes.new.items }
    ensures pushes { IfOk result (λ done. Pushes nodes.old.items nodes.new.items list.old.items list.new.items x) }
{
    let n = add(nodes, known, x)?;
    list.push(n)?;
    Ok(())
}

/// The assignment of the expression to the place.
pub fn assign(
    front: Front<'_, '_>,
    place: &Place,
    e: &Expr,
    list: &mut Vec<u32>,
    nodes: &mut Vec<Node>,
    known: &mut IndexMap<Key, u32>,
) -> Result<(), Memory>
    requires typed { IsTyped front.numbered.now }
    requires falls { Falls nodes.old.items }
    requires list { AllBelow list.old.items (length nodes.old.items) }
    ensures grows { Grows nodes.old.items nodes.new.items }
    ensures adds { IfOk result (λ done. Adds front.entry (λ s. EachIndex (IsRead (here front.entry) s) (index place.now.index) × IsRead (here front.entry) s (formula e.now)) nodes.old.items nodes.new.items list.old.items list.new.items
        (λ s. assigned (reference (here front.entry) s place.now.name.text (index_term (here front.entry) s (index place.now.index))) (written.term (here front.entry) s (formula e.now)))) }
{
    let index = index_of(front, place, nodes, known)?;
    let target = named(front, &place.name.text, index, nodes, known)?;
    let value = operand(front, e, nodes, known)?;
    match setting(nodes.as_slice(), target, value) {
        None => Ok(()),
        Some(x) => push(x, list, nodes, known),
    }
}

/// The halt with the expression.
pub fn halt(
    front: Front<'_, '_>,
    e: &Expr,
    list: &mut Vec<u32>,
    nodes: &mut Vec<Node>,
    known: &mut IndexMap<Key, u32>,
) -> Result<(), Memory>
    requires typed { IsTyped front.numbered.now }
    requires falls { Falls nodes.old.items }
    requires list { AllBelow list.old.items (length nodes.old.items) }
    ensures grows { Grows nodes.old.items nodes.new.items }
    ensures adds { IfOk result (λ done. Adds front.entry (λ s. IsRead (here front.entry) s (formula e.now)) nodes.old.items nodes.new.items list.old.items list.new.items (λ s. act.Halt (written.term (here front.entry) s (formula e.now)))) }
{
    let n = operand(front, e, nodes, known)?;
    push(Node::Halt(n), list, nodes, known)
}
