//! The nodes of statements without their `;`.

ghost use Rattle.std.specs.Prelude.{◌≡◌, ◌<◌, ℕ, None, Some, length, IfOk};
ghost use Rattle.c_tree.specs.Program.{Term, Terms, NoMore, More, Arithmetic};
ghost use Rattle.c_tree.specs.declared.statement.AssignMark.TheVariants as store;
ghost use Rattle.c_tree.specs.Statement.{index};
ghost use Rattle.c_tree.specs.Statement as statement;
ghost use Rattle.c_tree.specs.Names.{seen};
ghost use Rattle.c_tree.specs.Resolve.{scalar, assigned, as_store, index_term, first_term, invoked, act};
ghost use Rattle.c_names.specs.Shown.{names};
ghost use Rattle.c_flat.specs.Written.{Written, OfTerm, OfTerms, OfCommand, Falls, IsBelow, Grew, as_term, one, written};

use crate::expression::{push_expression, push_further};
use crate::make::scalar_node;
use crate::node::{Node, push_node};
use c_names::Scopes;
use c_tree::{AssignMark, Meaning, Simple, StepMark, Target};
use ir_core::Arith;
use nk_base::Memory;
use std::alloc::Global;

/// `++` as `+=`, `--` as `-=`.
fn as_assignment(mark: StepMark) -> AssignMark
    ensures { result ≡ as_store mark }
{
    match mark {
        StepMark::Up(at) => AssignMark::Add(at),
        StepMark::Down(at) => AssignMark::Sub(at),
    }
}

/// The node that assigns to an element, by what its array's name means.
fn element_assigned(meaning: Option<Meaning>, index: usize, mark: AssignMark, value: usize) -> Node
    ensures is { (f : ℕ → Written) (i t : Term) → f index ≡ OfTerm i → f value ≡ OfTerm t → one result f ≡ OfCommand (assigned meaning (Some i) mark t) }
    ensures below { (n : ℕ) → index < n → value < n → IsBelow result n }
{
    match meaning {
        None => Node::Skip,
        Some(found) => match found {
            Meaning::Cells(place, length) => match mark {
                AssignMark::Set(_) => Node::Store(place, length, index, value),
                AssignMark::Add(_) => Node::Change(place, length, index, Arith::Add, value),
                AssignMark::Sub(_) => Node::Change(place, length, index, Arith::Sub, value),
            },
            Meaning::OneCell(_) => Node::Skip,
            Meaning::Callee(_, _, _) => Node::Skip,
            Meaning::Main => Node::Skip,
            Meaning::In => Node::Skip,
            Meaning::Out => Node::Skip,
        },
    }
}

/// The node that assigns to a variable, by what its name means.
fn scalar_assigned(meaning: Option<Meaning>, value: usize) -> Node
    ensures is { (f : ℕ → Written) (at : ℕ) (t : Term) → f value ≡ OfTerm t → one result f ≡ OfCommand (assigned meaning None (store.Set at) t) }
    ensures below { (n : ℕ) → value < n → IsBelow result n }
{
    match meaning {
        None => Node::Skip,
        Some(found) => match found {
            Meaning::OneCell(place) => Node::Set(place, value),
            Meaning::Cells(_, _) => Node::Skip,
            Meaning::Callee(_, _, _) => Node::Skip,
            Meaning::Main => Node::Skip,
            Meaning::In => Node::Skip,
            Meaning::Out => Node::Skip,
        },
    }
}

/// The node of a call as a statement, by what its name means.
fn invoked_node(meaning: Option<Meaning>, first: usize, arguments: usize) -> Node
    ensures is { (f : ℕ → Written) (ts : Terms) → f first ≡ OfTerm (first_term ts) → f arguments ≡ OfTerms ts → one result f ≡ OfCommand (invoked meaning ts) }
    ensures below { (n : ℕ) → first < n → arguments < n → IsBelow result n }
{
    match meaning {
        None => Node::Skip,
        Some(found) => match found {
            Meaning::Callee(number, _, _) => Node::Invoke(number, arguments),
            Meaning::In => Node::Take,
            Meaning::Out => Node::Print(first),
            Meaning::OneCell(_) => Node::Skip,
            Meaning::Cells(_, _) => Node::Skip,
            Meaning::Main => Node::Skip,
        },
    }
}

/// Puts the nodes of a value that is added to a variable, or taken from it, behind the others.
fn push_changed(
    meaning: Option<Meaning>,
    op: Arith,
    value: usize,
    nodes: &mut Vec<Node>,
) -> Result<usize, Memory>
    requires falls { Falls nodes.old.items }
    requires value { value < length nodes.old.items }
    ensures { IfOk result (λ n. Grew nodes.old.items nodes.new.items (OfTerm (Arithmetic op (scalar meaning) (as_term (written nodes.old.items value)))) n) }
{
    let old = push_node(nodes, scalar_node(meaning))?;
    push_node(nodes, Node::Arithmetic(op, old, value))
}

/// Puts the nodes of an assignment to a variable behind the others.
pub fn push_assigned(
    meaning: Option<Meaning>,
    mark: AssignMark,
    value: usize,
    nodes: &mut Vec<Node>,
) -> Result<usize, Memory>
    requires falls { Falls nodes.old.items }
    requires value { value < length nodes.old.items }
    ensures { IfOk result (λ n. (t : Term) → written nodes.old.items value ≡ OfTerm t → Grew nodes.old.items nodes.new.items (OfCommand (assigned meaning None mark t)) n) }
{
    match mark {
        AssignMark::Set(_) => push_node(nodes, scalar_assigned(meaning, value)),
        AssignMark::Add(_) => {
            let sum = push_changed(meaning, Arith::Add, value, nodes)?;
            push_node(nodes, scalar_assigned(meaning, sum))
        }
        AssignMark::Sub(_) => {
            let difference = push_changed(meaning, Arith::Sub, value, nodes)?;
            push_node(nodes, scalar_assigned(meaning, difference))
        }
    }
}

/// Puts the nodes of an assignment behind the others, where the value's node has this number.
fn push_target(
    alloc: Global,
    scopes: &Scopes,
    place: &Target,
    mark: AssignMark,
    value: usize,
    nodes: &mut Vec<Node>,
) -> Result<usize, Memory>
    requires falls { Falls nodes.old.items }
    requires value { value < length nodes.old.items }
    ensures { IfOk result (λ n. (t : Term) → written nodes.old.items value ≡ OfTerm t → Grew nodes.old.items nodes.new.items (OfCommand (assigned (seen (names scopes.now) place.now.name.text) (index_term (names scopes.now) (index place.now.index)) mark t)) n) }
{
    let meaning = scopes.seen(&place.name.text);
    match &place.index {
        None => push_assigned(meaning, mark, value, nodes),
        Some((_, i, _)) => {
            let index = push_expression(alloc, scopes, i, nodes)?;
            push_node(nodes, element_assigned(meaning, index, mark, value))
        }
    }
}

/// Puts the nodes of a call without arguments behind the others.
fn push_invoked(meaning: Option<Meaning>, nodes: &mut Vec<Node>) -> Result<usize, Memory>
    requires falls { Falls nodes.old.items }
    ensures { IfOk result (λ n. Grew nodes.old.items nodes.new.items (OfCommand (invoked meaning NoMore)) n) }
{
    let zero = push_node(nodes, Node::Number(0))?;
    let none = push_node(nodes, Node::NoMore)?;
    push_node(nodes, invoked_node(meaning, zero, none))
}

/// Puts the nodes of a call behind the others, over the nodes of its first argument and of those behind it.
fn push_invoked_with(
    meaning: Option<Meaning>,
    first: usize,
    rest: usize,
    nodes: &mut Vec<Node>,
) -> Result<usize, Memory>
    requires falls { Falls nodes.old.items }
    requires first { first < length nodes.old.items }
    requires rest { rest < length nodes.old.items }
    ensures { IfOk result (λ n. (t : Term) (ts : Terms) → written nodes.old.items first ≡ OfTerm t → written nodes.old.items rest ≡ OfTerms ts → Grew nodes.old.items nodes.new.items (OfCommand (invoked meaning (More t ts))) n) }
{
    let all = push_node(nodes, Node::More(first, rest))?;
    push_node(nodes, invoked_node(meaning, first, all))
}

/// Puts the nodes of a statement without its `;` behind the others. The one error is want of memory.
pub fn push_simple(
    alloc: Global,
    scopes: &Scopes,
    simple: &Simple,
    nodes: &mut Vec<Node>,
) -> Result<usize, Memory>
    requires falls { Falls nodes.old.items }
    ensures { IfOk result (λ n. Grew nodes.old.items nodes.new.items (OfCommand (act (names scopes.now) (statement.act simple.now))) n) }
{
    match simple {
        Simple::Assign(place, mark, e) => {
            let value = push_expression(alloc, scopes, e, nodes)?;
            push_target(alloc, scopes, place, *mark, value, nodes)
        }
        Simple::Step(place, mark) => {
            let value = push_node(nodes, Node::Number(1))?;
            push_target(alloc, scopes, place, as_assignment(*mark), value, nodes)
        }
        Simple::Call(name, _, arguments, _) => match arguments {
            None => push_invoked(scopes.callee(&name.text), nodes),
            Some((first, rest)) => {
                let others = rest.as_slice();
                let x = push_expression(alloc, scopes, first, nodes)?;
                let xs = push_further(alloc, scopes, others, nodes)?;
                push_invoked_with(scopes.callee(&name.text), x, xs, nodes)
            }
        },
    }
}
