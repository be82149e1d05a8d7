//! The nodes of statements.

ghost use Rattle.std.specs.Prelude.{◌≡◌, ◌<◌, ℕ, length, option_map, IfOk, OnOk};
ghost use Rattle.c_tree.specs.Formula.{formula};
ghost use Rattle.c_tree.specs.Program as program;
ghost use Rattle.c_tree.specs.Statement.{body, statement};
ghost use Rattle.c_tree.specs.Statement as statements;
ghost use Rattle.c_tree.specs.Names.{behind_statement};
ghost use Rattle.c_tree.specs.Resolve.{term, command, commands};
ghost use Rattle.c_tree.specs.Resolve as resolve;
ghost use Rattle.c_names.specs.Shown.{names};
ghost use Rattle.c_walk.specs.Walk.{behind_body};
ghost use Rattle.c_flat.specs.Written.{Written, OfCommand, as_command, Falls, IsBelow, Grew, one, written};
ghost use Rattle.c_flat.specs.Listing.{Conditioned, IsWithin, condition_of};

use crate::chain::{Chain, push_list};
use crate::declaration::{push_first, push_locals};
use crate::expression::push_expression;
use crate::node::{Node, push_node};
use crate::simple::push_simple;
use c_names::Scopes;
use c_tree::{Expr, Part, Simple, Stmt};
use nk_base::Memory;
use std::alloc::Global;

/// Puts the node behind the others, and one that pays a turn for it.
fn push_turn(node: Node, nodes: &mut Vec<Node>) -> Result<usize, Memory>
    requires falls { Falls nodes.old.items }
    requires below { IsBelow node (length nodes.old.items) }
    ensures { IfOk result (λ n. Grew nodes.old.items nodes.new.items (OfCommand (program.Turn (as_command (one node (written nodes.old.items))))) n) }
{
    let inside = push_node(nodes, node)?;
    push_node(nodes, Node::Turn(inside))
}

/// Puts the nodes of the condition of a `for` behind the others, where there is one.
fn push_condition(
    alloc: Global,
    scopes: &Scopes,
    e: &Option<Expr>,
    nodes: &mut Vec<Node>,
) -> Result<Option<usize>, Memory>
    requires falls { Falls nodes.old.items }
    ensures { IfOk result (λ r. Conditioned nodes.old.items nodes.new.items (option_map (term (names scopes.now)) (option_map formula e.now)) r) }
{
    match e {
        None => Ok(None),
        Some(x) => Ok(Some(push_expression(alloc, scopes, x, nodes)?)),
    }
}

/// Puts the nodes of the last part of a `for` behind the others.
fn push_last(
    alloc: Global,
    scopes: &Scopes,
    last: &Option<Simple>,
    nodes: &mut Vec<Node>,
) -> Result<usize, Memory>
    requires falls { Falls nodes.old.items }
    ensures { IfOk result (λ n. Grew nodes.old.items nodes.new.items (OfCommand (resolve.last (names scopes.now) (option_map statements.act last.now))) n) }
{
    match last {
        None => push_node(nodes, Node::Skip),
        Some(simple) => push_simple(alloc, scopes, simple, nodes),
    }
}

/// The node of a `for` without its first part.
fn loop_node(condition: Option<usize>, last: usize, body: usize) -> Node
    ensures is { (f : ℕ → Written) → one result f ≡ OfCommand (program.For (condition_of f condition) (as_command (f last)) (as_command (f body))) }
    ensures below { (n : ℕ) → IsWithin condition n → last < n → body < n → IsBelow result n }
{
    match condition {
        None => Node::Forever(last, body),
        Some(test) => Node::For(test, last, body),
    }
}

/// Puts the nodes of a `for` behind the others, over those of its parts.
fn push_for(
    first: usize,
    condition: Option<usize>,
    last: usize,
    body: usize,
    nodes: &mut Vec<Node>,
) -> Result<usize, Memory>
    requires falls { Falls nodes.old.items }
    requires first { first < length nodes.old.items }
    requires condition { IsWithin condition (length nodes.old.items) }
    requires last { last < length nodes.old.items }
    requires body { body < length nodes.old.items }
    ensures { IfOk result (λ n. Grew nodes.old.items nodes.new.items (OfCommand (program.Turn (program.Seq (as_command (written nodes.old.items first)) (program.For (condition_of (written nodes.old.items) condition) (as_command (written nodes.old.items last)) (as_command (written nodes.old.items body)))))) n) }
{
    let tests = push_node(nodes, loop_node(condition, last, body))?;
    push_turn(Node::Seq(first, tests), nodes)
}

/// Puts the nodes of what stands in a block behind the others, and declares what it declares.
///
/// The one error is want of memory.
#[cycle(commands)]
#[tactic(auto, using(c_tree::proofs::StatementLaws::statement_laws))]
pub fn push_block(
    alloc: Global,
    scopes: &mut Scopes,
    parts: &[Part],
    nodes: &mut Vec<Node>,
) -> Result<usize, Memory>
    requires falls { Falls nodes.old.items }
    ensures scopes { OnOk result (names scopes.new ≡ behind_body (names scopes.old) (body parts.now)) }
    ensures nodes { IfOk result (λ n. Grew nodes.old.items nodes.new.items (OfCommand (commands (names scopes.old) (body parts.now))) n) }
{
    let mut numbers = Vec::new(alloc);
    for one in parts {
        match one {
            Part::Decl(decl) => {
                let inside = push_locals(alloc, scopes, decl, nodes)?;
                let number = push_node(nodes, Node::Turn(inside))?;
                numbers.push(number)?;
            }
            Part::Stmt(stmt) => {
                let number = push_command(alloc, scopes, stmt, nodes)?;
                numbers.push(number)?;
            }
        }
    }
    push_list(Chain::Commands, numbers, nodes)
}

/// Puts the nodes of a statement behind the others. It calls itself as deep as statements stand in statements.
#[cycle(commands)]
#[tactic(auto, using(c_tree::proofs::StatementLaws::statement_laws, c_walk::proofs::Behind::behind_laws))]
fn push_command(
    alloc: Global,
    scopes: &mut Scopes,
    stmt: &Stmt,
    nodes: &mut Vec<Node>,
) -> Result<usize, Memory>
    requires falls { Falls nodes.old.items }
    ensures scopes { OnOk result (names scopes.new ≡ behind_statement (names scopes.old) (statement stmt.now)) }
    ensures nodes { IfOk result (λ n. Grew nodes.old.items nodes.new.items (OfCommand (command (names scopes.old) (statement stmt.now))) n) }
{
    match stmt {
        Stmt::Block(inner) => {
            scopes.enter(alloc)?;
            let all = push_block(alloc, scopes, inner.parts.as_slice(), nodes)?;
            scopes.leave();
            Ok(all)
        }
        Stmt::Empty(_) => push_turn(Node::Skip, nodes),
        Stmt::Simple(simple, _) => {
            let act = push_simple(alloc, scopes, simple, nodes)?;
            push_node(nodes, Node::Turn(act))
        }
        Stmt::Break(_, _) => push_turn(Node::Break, nodes),
        Stmt::Continue(_, _) => push_turn(Node::Continue, nodes),
        Stmt::Return(_, e, _) => match e {
            None => push_turn(Node::Return, nodes),
            Some(x) => {
                let value = push_expression(alloc, scopes, x, nodes)?;
                push_turn(Node::ReturnWith(value), nodes)
            }
        },
        Stmt::If(_, _, c, _, x, other) => match other {
            None => {
                let test = push_expression(alloc, scopes, c, nodes)?;
                let then = push_command(alloc, scopes, x.get(), nodes)?;
                push_turn(Node::If(test, then), nodes)
            }
            Some((_, y)) => {
                let test = push_expression(alloc, scopes, c, nodes)?;
                let then = push_command(alloc, scopes, x.get(), nodes)?;
                let or = push_command(alloc, scopes, y.get(), nodes)?;
                push_turn(Node::IfElse(test, then, or), nodes)
            }
        },
        Stmt::While(_, _, c, _, x) => {
            let test = push_expression(alloc, scopes, c, nodes)?;
            let inside = push_command(alloc, scopes, x.get(), nodes)?;
            push_turn(Node::While(test, inside), nodes)
        }
        Stmt::Do(_, x, _, _, c, _, _) => {
            let inside = push_command(alloc, scopes, x.get(), nodes)?;
            let test = push_expression(alloc, scopes, c, nodes)?;
            push_turn(Node::Do(inside, test), nodes)
        }
        Stmt::For(_, _, first, _, c, _, last, _, x) => {
            let start = push_first(alloc, scopes, first, nodes)?;
            let test = push_condition(alloc, scopes, c, nodes)?;
            let step = push_last(alloc, scopes, last, nodes)?;
            let inside = push_command(alloc, scopes, x.get(), nodes)?;
            scopes.leave();
            push_for(start, test, step, inside, nodes)
        }
    }
}
