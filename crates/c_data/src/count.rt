//! How many cells the statements of a program have.

ghost use Rattle.std.specs.Prelude.{◌≡◌, ◌≤◌, ◌<◌, length, All, IfSome, IfOk};
ghost use Rattle.c_tree.specs.Accepted.{IsAcceptedTree};
ghost use Rattle.c_tree.specs.Resolve.{resolved};
ghost use Rattle.c_tree.specs.Counts.{data_of};
ghost use Rattle.c_flat.specs.Written.{Falls};
ghost use Rattle.c_count.specs.Sized.{AreCounted};
ghost use Rattle.c_counted.specs.Total.{counted};
ghost use Rattle.c_plan.specs.Plan.{plan_shown};
ghost use Rattle.c_data.specs.Totals.{together};

use crate::constants::{Constants, count_constants};
use crate::functions::{Total, count_main, count_others};
use crate::variables::{greater, shapes_of, sizes_of, sum};
use c_plan::{Plan, plan_of};
use c_tally::tally_nodes;
use c_tree::CTree;
use nk_base::Memory;
use std::alloc::Global;

/// All cells, by those of global variables and what is counted of `main`, of the other functions and of constants. The one error
/// is want of memory.
fn total_of(globals: u64, main: Total, others: Total, constants: Constants) -> Result<u64, Memory>
    ensures { IfOk result (λ k. k ≡ together globals main others constants) }
{
    let variables = sum(globals, sum(main.cells, others.cells)?)?;
    let values = sum(constants.different, constants.arrays)?;
    let calls = sum(main.calls, others.calls)?;
    let temporaries = sum(8, greater(main.largest, others.largest))?;
    sum(sum(variables, values)?, sum(calls, temporaries)?)
}

/// How many cells the statements of a planned program have, counted without the statements: those of its variables, its steps,
/// its results and returns, one for each different number, for each array and for each call, and the temporaries.
///
/// The one error is want of memory; a count of 2^64 or more, and one of a node's statements of 2^32 or more, count as such.
pub fn count_cells(alloc: Global, plan: &Plan, n: u32) -> Result<u64, Memory>
    requires falls { Falls plan.now.nodes.items }
    requires counted { AreCounted plan.now.nodes.items plan.now.sizes.items }
    requires main { IfSome plan.now.main (λ r. r.body < length plan.now.nodes.items) }
    requires others { All (λ r. r.body < length plan.now.nodes.items) plan.now.others.items }
    requires low { 16 ≤ n }
    requires high { n ≤ 32 }
    ensures { IfOk result (λ k. k ≡ counted (plan_shown plan.now) n) }
{
    let globals = shapes_of(alloc, plan.variables.as_slice())?;
    let tallies = tally_nodes(alloc, plan.nodes.as_slice())?;
    let main = count_main(plan, tallies.as_slice())?;
    let others = count_others(plan, tallies.as_slice())?;
    let constants = count_constants(alloc, plan, globals.as_slice(), n)?;
    total_of(sizes_of(globals.as_slice())?, main, others, constants)
}

/// How many cells the statements of an accepted program have.
///
/// The one error is want of memory; a count of 2^64 or more, and one of a node's statements of 2^32 or more, count as such.
pub fn cells_of(alloc: Global, t: &CTree, n: u32) -> Result<u64, Memory>
    requires accepted { IsAcceptedTree t.now n }
    requires low { 16 ≤ n }
    requires high { n ≤ 32 }
    ensures { IfOk result (λ k. k ≡ data_of (resolved t.now) n) }
{
    let plan = plan_of(alloc, t)?;
    count_cells(alloc, &plan, n)
}
