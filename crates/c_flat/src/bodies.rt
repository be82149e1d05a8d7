//! The nodes of all functions of a program.

ghost use Rattle.std.specs.Prelude.{◌≡◌, [], map, IfOk, OnOk};
ghost use Rattle.c_tree.specs.Items.{item};
ghost use Rattle.c_tree.specs.Names.{behind_gvar, behind_gvars, gvars};
ghost use Rattle.c_names.specs.Shown.{names};
ghost use Rattle.c_walk.specs.Walk.{further_gvars};
ghost use Rattle.c_flat.specs.Written.{Falls};
ghost use Rattle.c_flat.specs.Listing.{Standing, outlines_of};

use crate::function::{Body, push_function};
use crate::node::Node;
use c_names::{Scopes, first_scopes};
use c_tree::{GVar, Global as CGlobal, Vars};
use nk_base::Memory;
use std::alloc::Global;

/// Declares a global variable.
fn declare_variable(scopes: &mut Scopes, one: &GVar) -> Result<(), Memory>
    ensures { OnOk result (names scopes.new ≡ behind_gvar (names scopes.old) one.now) }
{
    match one {
        GVar::Scalar(name, _) => scopes.declare_global(&name.text, None),
        GVar::Array(name, _, length, _, _) => {
            scopes.declare_global(&name.text, Some(length.value))
        }
    }
}

/// Declares further global variables.
fn declare_others(scopes: &mut Scopes, rest: &[(u32, GVar)]) -> Result<(), Memory>
    ensures { OnOk result (names scopes.new ≡ behind_gvars (names scopes.old) (further_gvars rest.now)) }
{
    for (_, one) in rest {
        declare_variable(scopes, one)?;
    }
    Ok(())
}

/// Declares global variables.
fn declare_variables(scopes: &mut Scopes, vars: &Vars) -> Result<(), Memory>
    ensures { OnOk result (names scopes.new ≡ behind_gvars (names scopes.old) (gvars vars.now)) }
{
    declare_variable(scopes, &vars.first)?;
    declare_others(scopes, vars.rest.as_slice())
}

/// Puts the nodes of the bodies of all functions behind the others, `main`'s too, and answers the bodies in the
/// text's order.
///
/// The one error is want of memory.
pub fn push_bodies(
    alloc: Global,
    globals: &[CGlobal],
    nodes: &mut Vec<Node>,
) -> Result<Vec<Body>, Memory>
    requires falls { Falls nodes.old.items }
    ensures { IfOk result (λ bs. Standing nodes.old.items nodes.new.items bs.items [] (outlines_of (map item globals.now))) }
{
    let mut scopes = first_scopes(alloc, globals)?;
    let mut bodies = Vec::new(alloc);
    for one in globals {
        match one {
            CGlobal::Vars(vars) => declare_variables(&mut scopes, vars)?,
            CGlobal::Function(function) => {
                let body = push_function(alloc, &mut scopes, function, nodes)?;
                bodies.push(body)?;
            }
        }
    }
    Ok(bodies)
}
