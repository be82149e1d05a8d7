//! What is counted of each node of a program.

ghost use Rattle.std.specs.Prelude.{◌≡◌, IfOk};
ghost use Rattle.c_flat.specs.Written.{Falls};
ghost use Rattle.c_tally.specs.Tallied.{AreTallied};
ghost use Rattle.c_tally.specs.Over as over;

use crate::command::{invoke, own, pair, returned, single, stored, tested, triple};
use crate::part::{arguments_at, command_at, term_at};
use crate::tally::Tally;
use crate::term::{
    arithmetic, call, compare, element, input, more, negation, no_arguments, number, prefixed,
    scalar, shifted, two_conditions,
};
use c_flat::Node;
use nk_base::Memory;
use std::alloc::Global;

/// What is counted of a node, over what is counted of the earlier ones.
fn tally_node(node: Node, f: &[Tally]) -> Result<Tally, Memory>
    ensures { IfOk result (λ r. r ≡ over.counted node f.now) }
{
    match node {
        Node::Number(_) => Ok(number()),
        Node::Scalar(place) => scalar(place),
        Node::Element(_, _, i) => element(term_at(f, i)),
        Node::Input => input(),
        Node::Call(_, xs) => call(arguments_at(f, xs)),
        Node::Unary(_, x) => prefixed(term_at(f, x)),
        Node::Shifted(_, x, by) => shifted(by, term_at(f, x)),
        Node::Arithmetic(_, x, y) => arithmetic(term_at(f, x), term_at(f, y)),
        Node::Compare(_, x, y) => compare(term_at(f, x), term_at(f, y)),
        Node::Not(x) => Ok(negation(term_at(f, x))),
        Node::AndAlso(x, y) => two_conditions(term_at(f, x), term_at(f, y)),
        Node::OrElse(x, y) => two_conditions(term_at(f, x), term_at(f, y)),
        Node::NoMore => Ok(Tally::Arguments(no_arguments())),
        Node::More(x, xs) => more(term_at(f, x), arguments_at(f, xs)),
        Node::Skip => Ok(Tally::Command(own(0, 0))),
        Node::Seq(x, y) => pair(command_at(f, x), command_at(f, y)),
        Node::Turn(x) => Ok(Tally::Command(command_at(f, x))),
        Node::Set(_, e) => single(term_at(f, e)),
        Node::Store(_, _, i, e) => stored(term_at(f, i), 3, term_at(f, e)),
        Node::Change(_, _, i, _, e) => stored(term_at(f, i), 5, term_at(f, e)),
        Node::Print(e) => single(term_at(f, e)),
        Node::Take => Ok(Tally::Command(own(1, 0))),
        Node::Invoke(_, xs) => invoke(arguments_at(f, xs)),
        Node::If(e, x) => pair(tested(term_at(f, e)), command_at(f, x)),
        Node::IfElse(e, x, y) => triple(tested(term_at(f, e)), command_at(f, x), command_at(f, y)),
        Node::While(e, x) => pair(tested(term_at(f, e)), command_at(f, x)),
        Node::Do(x, e) => pair(tested(term_at(f, e)), command_at(f, x)),
        Node::Forever(st, x) => pair(command_at(f, x), command_at(f, st)),
        Node::For(e, st, x) => triple(tested(term_at(f, e)), command_at(f, x), command_at(f, st)),
        Node::Break => Ok(Tally::Command(own(0, 0))),
        Node::Continue => Ok(Tally::Command(own(0, 0))),
        Node::Return => Ok(Tally::Command(own(0, 0))),
        Node::ReturnWith(e) => returned(term_at(f, e)),
    }
}

/// What is counted of each node, in the nodes' order. The one error is want of memory; a number of 2^32 or more counts as such.
pub fn tally_nodes(alloc: Global, nodes: &[Node]) -> Result<Vec<Tally>, Memory>
    requires falls { Falls nodes.now }
    ensures { IfOk result (λ tallies. AreTallied nodes.now tallies.items) }
{
    let mut tallies = Vec::new(alloc);
    for node in nodes {
        let tally = tally_node(*node, tallies.as_slice())?;
        tallies.push(tally)?;
    }
    Ok(tallies)
}
