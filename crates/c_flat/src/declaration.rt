//! The nodes of local declarations.

ghost use Rattle.std.specs.Prelude.{◌≡◌, ℕ, length, option_map, IfOk, OnOk};
ghost use Rattle.c_tree.specs.Statement as statement;
ghost use Rattle.c_tree.specs.Names.{inner, behind_variable, behind_variables, behind_opening, declared_variables};
ghost use Rattle.c_tree.specs.Resolve as resolve;
ghost use Rattle.c_names.specs.Shown.{names};
ghost use Rattle.c_flat.specs.Written.{OfCommand, Falls, Grew};

use crate::chain::{Chain, push_list};
use crate::expression::push_expression;
use crate::node::{Node, push_node};
use crate::simple::{push_assigned, push_simple};
use c_names::Scopes;
use c_tree::{AssignMark, Decl, First, LVar};
use nk_base::Memory;
use std::alloc::Global;

/// Declares a local variable, and puts the nodes of what its declaration does behind the others.
fn push_local(
    alloc: Global,
    scopes: &mut Scopes,
    local: &LVar,
    nodes: &mut Vec<Node>,
) -> Result<usize, Memory>
    requires falls { Falls nodes.old.items }
    ensures scopes { OnOk result (names scopes.new ≡ behind_variable (names scopes.old) (statement.variable local.now)) }
    ensures nodes { IfOk result (λ n. Grew nodes.old.items nodes.new.items (OfCommand (resolve.variable (names scopes.old) (statement.variable local.now))) n) }
{
    match local {
        LVar::Scalar(name, value) => match value {
            None => {
                scopes.declare_local(&name.text, None)?;
                push_node(nodes, Node::Skip)
            }
            Some((at, e)) => {
                scopes.declare_local(&name.text, None)?;
                let start = push_expression(alloc, scopes, e, nodes)?;
                let meaning = scopes.seen(&name.text);
                push_assigned(meaning, AssignMark::Set(*at), start, nodes)
            }
        },
        LVar::Array(name, _, length, _) => {
            scopes.declare_local(&name.text, Some(length.value))?;
            push_node(nodes, Node::Skip)
        }
    }
}

/// Declares local variables, and puts the nodes of what their declaration does behind the others.
///
/// The one error is want of memory.
pub fn push_locals(
    alloc: Global,
    scopes: &mut Scopes,
    decl: &Decl,
    nodes: &mut Vec<Node>,
) -> Result<usize, Memory>
    requires falls { Falls nodes.old.items }
    ensures scopes { OnOk result (names scopes.new ≡ behind_variables (names scopes.old) (declared_variables (statement.declaration decl.now))) }
    ensures nodes { IfOk result (λ n. Grew nodes.old.items nodes.new.items (OfCommand (resolve.variables (names scopes.old) (declared_variables (statement.declaration decl.now)))) n) }
{
    let first = push_local(alloc, scopes, &decl.first, nodes)?;
    let mut numbers = Vec::new(alloc);
    numbers.push(first)?;
    let rest = decl.rest.as_slice();
    for (_, one) in rest {
        let number = push_local(alloc, scopes, one, nodes)?;
        numbers.push(number)?;
    }
    push_list(Chain::Commands, numbers, nodes)
}

/// Begins the block of a `for`, and puts the nodes of its first part behind the others.
pub fn push_first(
    alloc: Global,
    scopes: &mut Scopes,
    first: &Option<First>,
    nodes: &mut Vec<Node>,
) -> Result<usize, Memory>
    requires falls { Falls nodes.old.items }
    ensures scopes { OnOk result (names scopes.new ≡ behind_opening (names scopes.old) (option_map statement.opening first.now)) }
    ensures nodes { IfOk result (λ n. Grew nodes.old.items nodes.new.items (OfCommand (resolve.opening (inner (names scopes.old)) (option_map statement.opening first.now))) n) }
{
    scopes.enter(alloc)?;
    match first {
        None => push_node(nodes, Node::Skip),
        Some(part) => match part {
            First::Simple(simple) => push_simple(alloc, scopes, simple, nodes),
            First::Var(_, one) => push_local(alloc, scopes, one, nodes),
        },
    }
}
