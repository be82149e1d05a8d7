//! What is counted of each node of a program.

ghost use Rattle.std.specs.Prelude.{◌≡◌, IfOk};
ghost use Rattle.c_flat.specs.Written.{Falls};
ghost use Rattle.c_count.specs.Sized.{AreCounted};
ghost use Rattle.c_count.specs.Over as over;

use crate::command::{
    as_value, endless, if_else, invoke, own, pair, turns, when_fails, when_holds,
};
use crate::part::{arguments_at, command_at, term_at};
use crate::size::Size;
use crate::term::{
    and_also, arithmetic, call, compare, element, more, negation, no_arguments, or_else, plain,
    scalar, value,
};
use c_flat::Node;
use nk_base::Memory;
use std::alloc::Global;

/// What is counted of a node, over what is counted of the earlier ones.
fn count_node(node: Node, f: &[Size]) -> Result<Size, Memory>
    ensures { IfOk result (λ r. r ≡ over.counted node f.now) }
{
    match node {
        Node::Number(_) => Ok(Size::Term(plain(false, 0, 0, 0))),
        Node::Scalar(place) => Ok(Size::Term(scalar(place))),
        Node::Element(_, _, i) => element(term_at(f, i)),
        Node::Input => Ok(Size::Term(plain(false, 1, 1, 0))),
        Node::Call(_, xs) => call(arguments_at(f, xs)),
        Node::Unary(_, x) => Ok(Size::Term(value(term_at(f, x)))),
        Node::Shifted(_, x, _) => Ok(Size::Term(value(term_at(f, x)))),
        Node::Arithmetic(_, x, y) => arithmetic(term_at(f, x), term_at(f, y)),
        Node::Compare(_, x, y) => compare(term_at(f, x), term_at(f, y)),
        Node::Not(x) => negation(term_at(f, x)),
        Node::AndAlso(x, y) => and_also(term_at(f, x), term_at(f, y)),
        Node::OrElse(x, y) => or_else(term_at(f, x), term_at(f, y)),
        Node::NoMore => Ok(Size::Arguments(no_arguments())),
        Node::More(x, xs) => more(term_at(f, x), arguments_at(f, xs)),
        Node::Skip => Ok(Size::Command(own(0, 0))),
        Node::Seq(x, y) => pair(command_at(f, x), command_at(f, y), 0, 0),
        Node::Turn(x) => Ok(Size::Command(command_at(f, x))),
        Node::Set(_, e) => Ok(Size::Command(as_value(term_at(f, e)))),
        Node::Store(_, _, i, e) => pair(as_value(term_at(f, i)), as_value(term_at(f, e)), 1, 0),
        Node::Change(_, _, i, _, e) => pair(as_value(term_at(f, i)), as_value(term_at(f, e)), 2, 0),
        Node::Print(e) => Ok(Size::Command(as_value(term_at(f, e)))),
        Node::Take => Ok(Size::Command(own(1, 0))),
        Node::Invoke(_, xs) => invoke(arguments_at(f, xs)),
        Node::If(e, x) => pair(when_fails(term_at(f, e)), command_at(f, x), 0, 1),
        Node::IfElse(e, x, y) => if_else(term_at(f, e), command_at(f, x), command_at(f, y)),
        Node::While(e, x) => pair(when_fails(term_at(f, e)), command_at(f, x), 0, 2),
        Node::Do(x, e) => pair(command_at(f, x), when_holds(term_at(f, e)), 0, 3),
        Node::Forever(st, x) => endless(command_at(f, x), command_at(f, st)),
        Node::For(e, st, x) => turns(term_at(f, e), command_at(f, x), command_at(f, st)),
        Node::Break => Ok(Size::Command(own(0, 0))),
        Node::Continue => Ok(Size::Command(own(0, 0))),
        Node::Return => Ok(Size::Command(own(0, 0))),
        Node::ReturnWith(e) => Ok(Size::Command(as_value(term_at(f, e)))),
    }
}

/// What is counted of each node, in the nodes' order. The one error is want of memory; a number of 2^32 or more counts as such.
pub fn count_nodes(alloc: Global, nodes: &[Node]) -> Result<Vec<Size>, Memory>
    requires falls { Falls nodes.now }
    ensures { IfOk result (λ sizes. AreCounted nodes.now sizes.items) }
{
    let mut sizes = Vec::new(alloc);
    for node in nodes {
        let size = count_node(*node, sizes.as_slice())?;
        sizes.push(size)?;
    }
    Ok(sizes)
}
