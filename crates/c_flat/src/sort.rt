//! Nodes by what they write out: an expression, arguments or a command.

ghost use Rattle.std.specs.Prelude.{◌≡◌, ℕ};
ghost use Rattle.std.specs.Option.{option_map};
ghost use Rattle.c_flat.specs.Written.{Written, as_term, as_terms, as_command, one, AreBelow, IsBelow};
ghost use Rattle.c_flat.specs.Sorts.{term_over, terms_over, command_over, term_parts, terms_parts, command_parts};

use crate::node::Node;
use c_tree::Place;
use ir_core::{Arith, Prefix, Rel, Shift};

/// A node of an expression.
///
/// The form is this project's own.
#[derive(Clone, Copy)]
pub enum TermNode {
    Number(u64),
    Scalar(Place),
    Element(Place, u64, usize),
    Input,
    Call(usize, usize),
    Unary(Prefix, usize),
    Shifted(Shift, usize, u64),
    Arithmetic(Arith, usize, usize),
    Compare(Rel, usize, usize),
    Not(usize),
    AndAlso(usize, usize),
    OrElse(usize, usize),
}

/// A node of a command.
///
/// The form is this project's own.
#[derive(Clone, Copy)]
pub enum CommandNode {
    Skip,
    Seq(usize, usize),
    Turn(usize),
    Set(Place, usize),
    Store(Place, u64, usize, usize),
    Change(Place, u64, usize, Arith, usize),
    Print(usize),
    Take,
    Invoke(usize, usize),
    If(usize, usize),
    IfElse(usize, usize, usize),
    While(usize, usize),
    Do(usize, usize),
    Forever(usize, usize),
    For(usize, usize, usize),
    Break,
    Continue,
    Return,
    ReturnWith(usize),
}

/// The node of an expression that this is; another one counts as 0.
pub fn term_node(node: Node) -> TermNode
    ensures is { (f : ℕ → Written) → term_over result f ≡ as_term (one node f) }
    ensures below { (n : ℕ) → IsBelow node n → AreBelow (term_parts result) n }
{
    match node {
        Node::Number(z) => TermNode::Number(z),
        Node::Scalar(place) => TermNode::Scalar(place),
        Node::Element(place, length, i) => TermNode::Element(place, length, i),
        Node::Input => TermNode::Input,
        Node::Call(g, xs) => TermNode::Call(g, xs),
        Node::Unary(op, x) => TermNode::Unary(op, x),
        Node::Shifted(op, x, k) => TermNode::Shifted(op, x, k),
        Node::Arithmetic(op, x, y) => TermNode::Arithmetic(op, x, y),
        Node::Compare(r, x, y) => TermNode::Compare(r, x, y),
        Node::Not(x) => TermNode::Not(x),
        Node::AndAlso(x, y) => TermNode::AndAlso(x, y),
        Node::OrElse(x, y) => TermNode::OrElse(x, y),
        Node::NoMore | Node::Skip | Node::Take | Node::Break | Node::Continue | Node::Return =>
            TermNode::Number(0),
        Node::Turn(_) | Node::Print(_) | Node::ReturnWith(_) => TermNode::Number(0),
        Node::Set(_, _) => TermNode::Number(0),
        Node::More(_, _)
        | Node::Seq(_, _)
        | Node::Invoke(_, _)
        | Node::If(_, _)
        | Node::While(_, _)
        | Node::Do(_, _)
        | Node::Forever(_, _) => TermNode::Number(0),
        Node::IfElse(_, _, _) | Node::For(_, _, _) => TermNode::Number(0),
        Node::Store(_, _, _, _) => TermNode::Number(0),
        Node::Change(_, _, _, _, _) => TermNode::Number(0),
    }
}

/// The first argument and those behind it, where this is a node of arguments; another one counts as none.
pub fn terms_node(node: Node) -> Option<(usize, usize)>
    ensures is { (f : ℕ → Written) → terms_over result f ≡ as_terms (one node f) }
    ensures below { (n : ℕ) → IsBelow node n → AreBelow (terms_parts result) n }
{
    match node {
        Node::More(x, xs) => Some((x, xs)),
        Node::Input
        | Node::NoMore
        | Node::Skip
        | Node::Take
        | Node::Break
        | Node::Continue
        | Node::Return => None,
        Node::Number(_) => None,
        Node::Scalar(_) => None,
        Node::Not(_) | Node::Turn(_) | Node::Print(_) | Node::ReturnWith(_) => None,
        Node::Element(_, _, _) => None,
        Node::Unary(_, _) => None,
        Node::Set(_, _) => None,
        Node::Shifted(_, _, _) => None,
        Node::Arithmetic(_, _, _) => None,
        Node::Compare(_, _, _) => None,
        Node::Call(_, _)
        | Node::AndAlso(_, _)
        | Node::OrElse(_, _)
        | Node::Seq(_, _)
        | Node::Invoke(_, _)
        | Node::If(_, _)
        | Node::While(_, _)
        | Node::Do(_, _)
        | Node::Forever(_, _) => None,
        Node::IfElse(_, _, _) | Node::For(_, _, _) => None,
        Node::Store(_, _, _, _) => None,
        Node::Change(_, _, _, _, _) => None,
    }
}

/// The node of a command that this is; another one counts as nothing to do.
pub fn command_node(node: Node) -> CommandNode
    ensures is { (f : ℕ → Written) → command_over result f ≡ as_command (one node f) }
    ensures below { (n : ℕ) → IsBelow node n → AreBelow (command_parts result) n }
{
    match node {
        Node::Skip => CommandNode::Skip,
        Node::Seq(x, y) => CommandNode::Seq(x, y),
        Node::Turn(x) => CommandNode::Turn(x),
        Node::Set(place, e) => CommandNode::Set(place, e),
        Node::Store(place, length, i, e) => CommandNode::Store(place, length, i, e),
        Node::Change(place, length, i, op, e) => CommandNode::Change(place, length, i, op, e),
        Node::Print(e) => CommandNode::Print(e),
        Node::Take => CommandNode::Take,
        Node::Invoke(g, xs) => CommandNode::Invoke(g, xs),
        Node::If(e, x) => CommandNode::If(e, x),
        Node::IfElse(e, x, y) => CommandNode::IfElse(e, x, y),
        Node::While(e, x) => CommandNode::While(e, x),
        Node::Do(x, e) => CommandNode::Do(x, e),
        Node::Forever(step, x) => CommandNode::Forever(step, x),
        Node::For(e, step, x) => CommandNode::For(e, step, x),
        Node::Break => CommandNode::Break,
        Node::Continue => CommandNode::Continue,
        Node::Return => CommandNode::Return,
        Node::ReturnWith(e) => CommandNode::ReturnWith(e),
        Node::Input | Node::NoMore => CommandNode::Skip,
        Node::Number(_) => CommandNode::Skip,
        Node::Scalar(_) => CommandNode::Skip,
        Node::Not(_) => CommandNode::Skip,
        Node::Element(_, _, _) => CommandNode::Skip,
        Node::Unary(_, _) => CommandNode::Skip,
        Node::Shifted(_, _, _) => CommandNode::Skip,
        Node::Arithmetic(_, _, _) => CommandNode::Skip,
        Node::Compare(_, _, _) => CommandNode::Skip,
        Node::Call(_, _) | Node::AndAlso(_, _) | Node::OrElse(_, _) | Node::More(_, _) => {
            CommandNode::Skip
        }
    }
}
