//! What a program is made of.

ghost use Rattle.std.specs.Prelude.{IfOk};
ghost use Rattle.c_tree.specs.Resolve.{resolved};
ghost use Rattle.c_plan.specs.Plan.{IsPlan};

use crate::routine::{Routine, routines_of};
use c_count::{Size, count_nodes};
use c_flat::{Node, push_bodies};
use c_shapes::{Variable, functions_of, variables_of};
use c_tree::CTree;
use nk_base::Memory;
use std::alloc::Global;

/// A program: the nodes of the bodies of its functions, how many step cells and labels each node's statements have, its
/// global variables, `main`, and the other functions in the text's order.
///
/// The form is this project's own.
#[derive(Drop)]
pub struct Plan {
    pub nodes: Vec<Node>,
    pub sizes: Vec<Size>,
    pub variables: Vec<Variable>,
    pub main: Option<Routine>,
    pub others: Vec<Routine>,
}

/// What a program is made of. The program need not be accepted: of several functions that are called `main` the first
/// is `main`, and a name that is used wrongly gives a 0 or nothing to do.
///
/// The one error is want of memory; a count of 2^32 or more, and an initial value that 64 bits with a sign don't hold,
/// count as such.
pub fn plan_of(alloc: Global, t: &CTree) -> Result<Plan, Memory>
    ensures { IfOk result (λ plan. IsPlan plan (resolved t.now)) }
{
    let globals = t.globals.as_slice();
    let mut nodes = Vec::new(alloc);
    let bodies = push_bodies(alloc, globals, &mut nodes)?;
    let sizes = count_nodes(alloc, nodes.as_slice())?;
    let variables = variables_of(alloc, globals)?;
    let declared = functions_of(alloc, globals)?;
    let routines = routines_of(alloc, declared, bodies)?;
    Ok(Plan {
        nodes,
        sizes,
        variables,
        main: routines.main,
        others: routines.others,
    })
}
