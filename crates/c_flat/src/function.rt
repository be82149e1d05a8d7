//! The nodes of functions.

ghost use Rattle.std.specs.Prelude.{◌≡◌, ◌∷◌, ◌++◌, [], None, length, replicate, IfOk, OnOk};
ghost use Rattle.c_tree.specs.Names.{behind_name, behind_parameters, before_body, body_shapes, parameters};
ghost use Rattle.c_tree.specs.Program.{sizes};
ghost use Rattle.c_tree.specs.Names as spec;
ghost use Rattle.c_tree.specs.Resolve.{commands, body_of};
ghost use Rattle.c_tree.specs.Statement.{block};
ghost use Rattle.c_names.specs.Shown.{names};
ghost use Rattle.c_walk.specs.Walk.{defined, further_params};
ghost use Rattle.c_flat.specs.Written.{OfCommand, Falls, Grew};

use crate::command::push_block;
use crate::node::Node;
use c_names::{Scopes, is_main};
use c_tree::{Function, Meaning, Param, Params};
use nk_base::Memory;
use std::alloc::Global;

/// Declares the function's own name.
fn declare_function(scopes: &mut Scopes, function: &Function) -> Result<(), Memory>
    ensures { OnOk result (names scopes.new ≡ behind_name (names scopes.old) (defined function.now)) }
{
    let name = &function.name.text;
    match scopes.function(name) {
        None => scopes.declare(name, Meaning::Main),
        Some(meaning) => scopes.declare(name, meaning),
    }
}

/// Begins the block of a function's body, with cells from 0 on.
fn enter_function(scopes: &mut Scopes, alloc: Global) -> Result<(), Memory>
    ensures { OnOk result (names scopes.new ≡ record (spec.inner (names scopes.old)) { next = 0 }) }
{
    scopes.enter(alloc)?;
    scopes.next = 0;
    Ok(())
}

/// Declares a parameter.
fn declare_parameter(scopes: &mut Scopes, one: &Param) -> Result<(), Memory>
    ensures { OnOk result (names scopes.new ≡ behind_parameters (names scopes.old) (one.now ∷ [])) }
{
    scopes.declare_local(&one.name.text, None)
}

/// Declares further parameters.
fn declare_further(scopes: &mut Scopes, rest: &[(u32, Param)]) -> Result<(), Memory>
    ensures { OnOk result (names scopes.new ≡ behind_parameters (names scopes.old) (further_params rest.now)) }
{
    for (_, one) in rest {
        declare_parameter(scopes, one)?;
    }
    Ok(())
}

/// Declares parameters.
fn declare_parameters(scopes: &mut Scopes, params: &Option<Params>) -> Result<(), Memory>
    ensures { OnOk result (names scopes.new ≡ behind_parameters (names scopes.old) (parameters params.now)) }
{
    match params {
        None => Ok(()),
        Some(found) => match found {
            Params::Void(_) => Ok(()),
            Params::Named(first, rest) => {
                declare_parameter(scopes, first)?;
                declare_further(scopes, rest.as_slice())
            }
        },
    }
}

/// The body of a function: whether the function is called `main`, the body's node, and how many cells its variables have.
///
/// The form is this project's own.
#[derive(Clone, Copy)]
pub struct Body {
    pub main: bool,
    pub node: usize,
    pub cells: u128,
}

/// Declares the function's name, and puts the nodes of its body behind the others.
///
/// The one error is want of memory.
pub fn push_function(
    alloc: Global,
    scopes: &mut Scopes,
    function: &Function,
    nodes: &mut Vec<Node>,
) -> Result<Body, Memory>
    requires falls { Falls nodes.old.items }
    ensures scopes { OnOk result (names scopes.new ≡ behind_name (names scopes.old) (defined function.now)) }
    ensures nodes { IfOk result (λ b. Grew nodes.old.items nodes.new.items (OfCommand (commands (before_body (names scopes.old) (defined function.now)) (body_of (block function.now.body)))) b.node) }
    ensures main { IfOk result (λ b. b.main ≡ spec.is_main (defined function.now)) }
    ensures cells { IfOk result (λ b. b.cells ≡ sizes (replicate (length (parameters function.now.params)) None ++ body_shapes (body_of (block function.now.body)))) }
{
    declare_function(scopes, function)?;
    let next = scopes.next;
    enter_function(scopes, alloc)?;
    declare_parameters(scopes, &function.params)?;
    let node = push_block(alloc, scopes, function.body.parts.as_slice(), nodes)?;
    let cells = scopes.next;
    scopes.leave();
    scopes.next = next;
    let main = is_main(&function.name.text);
    Ok(Body { main, node, cells })
}
