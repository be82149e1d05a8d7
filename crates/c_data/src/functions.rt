//! What is counted of functions.

ghost use Rattle.std.specs.Prelude.{◌≡◌, ◌<◌, ◌+◌, ◌∷◌, [], length, All, IfSome, IfOk, if◌then◌else◌};
ghost use Rattle.c_tree.specs.Code.{one_if};
ghost use Rattle.c_tree.specs.Lowered.{own_cells};
ghost use Rattle.c_count.specs.Sized.{AreCounted};
ghost use Rattle.c_tally.specs.Tallied.{AreTallied};
ghost use Rattle.c_counted.specs.Total.{end_largest};
ghost use Rattle.c_plan.specs.Plan.{plan_shown, routine_shown};
ghost use Rattle.c_data.specs.Totals.{joined, main_total, functions_total};

use crate::variables::{greater, sizes_of, sum};
use c_count::command_size_of;
use c_plan::{Plan, Routine};
use c_tally::{Tally, command_tally_of};
use nk_base::Memory;

/// What is counted of functions: the cells of their variables, steps, results and returns, the calls in them, and the nodes below
/// the root of the largest statement.
///
/// The form is this project's own.
#[derive(Clone, Copy)]
pub(crate) struct Total {
    pub cells: u64,
    pub calls: u64,
    pub largest: u64,
}

/// How many cells a function's parameters, locals and steps have. The one error is want of memory.
fn own_cells_of(plan: &Plan, one: &Routine) -> Result<u64, Memory>
    requires counted { AreCounted plan.now.nodes.items plan.now.sizes.items }
    requires within { one.now.body < length plan.now.nodes.items }
    ensures { IfOk result (λ k. k ≡ own_cells (routine_shown plan.now.nodes.items one.now)) }
{
    let steps = command_size_of(plan.sizes.as_slice(), one.body).cells;
    sum(sizes_of(one.variables.as_slice())?, u64::from(steps))
}

/// Both together. The one error is want of memory.
fn join(x: Total, y: Total) -> Result<Total, Memory>
    ensures { IfOk result (λ t. t ≡ joined x y) }
{
    let cells = sum(x.cells, y.cells)?;
    let calls = sum(x.calls, y.calls)?;
    Ok(Total {
        cells,
        calls,
        largest: greater(x.largest, y.largest),
    })
}

/// What is counted of `main`. The one error is want of memory.
pub(crate) fn count_main(plan: &Plan, tallies: &[Tally]) -> Result<Total, Memory>
    requires counted { AreCounted plan.now.nodes.items plan.now.sizes.items }
    requires tallied { AreTallied plan.now.nodes.items tallies.now }
    requires main { IfSome plan.now.main (λ r. r.body < length plan.now.nodes.items) }
    ensures { IfOk result (λ t. t ≡ main_total (plan_shown plan.now).main) }
{
    match &plan.main {
        None => Ok(Total {
            cells: 0,
            calls: 0,
            largest: 0,
        }),
        Some(one) => {
            let tally = command_tally_of(tallies, one.body);
            Ok(Total {
                cells: own_cells_of(plan, one)?,
                calls: u64::from(tally.calls),
                largest: u64::from(tally.in_main),
            })
        }
    }
}

/// 1 where it holds, and 0 where it doesn't.
fn one_where(holds: bool) -> u64
    ensures { result ≡ one_if holds }
{
    if holds { 1 } else { 0 }
}

/// The nodes below the root of the statement at a function's end, where there is one.
fn end_of(returns: bool, gives: bool) -> u64
    ensures { result ≡ (if returns then 0 else one_if gives) }
{
    if returns { 0 } else { one_where(gives) }
}

/// What is counted of a function that isn't `main`. The one error is want of memory.
fn count_function(plan: &Plan, tallies: &[Tally], one: &Routine) -> Result<Total, Memory>
    requires counted { AreCounted plan.now.nodes.items plan.now.sizes.items }
    requires tallied { AreTallied plan.now.nodes.items tallies.now }
    requires within { one.now.body < length plan.now.nodes.items }
    ensures { IfOk result (λ t. t ≡ functions_total (routine_shown plan.now.nodes.items one.now ∷ [])) }
{
    let tally = command_tally_of(tallies, one.body);
    let own = own_cells_of(plan, one)?;
    let end = end_of(one.returns, one.gives);
    Ok(Total {
        cells: sum(own, one_where(one.gives) + 1)?,
        calls: u64::from(tally.calls),
        largest: greater(u64::from(tally.elsewhere), end),
    })
}

/// What is counted of the functions other than `main`. The one error is want of memory.
pub(crate) fn count_others(plan: &Plan, tallies: &[Tally]) -> Result<Total, Memory>
    requires counted { AreCounted plan.now.nodes.items plan.now.sizes.items }
    requires tallied { AreTallied plan.now.nodes.items tallies.now }
    requires others { All (λ r. r.body < length plan.now.nodes.items) plan.now.others.items }
    ensures { IfOk result (λ t. t ≡ functions_total (plan_shown plan.now).functions) }
{
    let mut total = Total {
        cells: 0,
        calls: 0,
        largest: 0,
    };
    for one in plan.others.as_slice() {
        total = join(total, count_function(plan, tallies, one)?)?;
    }
    Ok(total)
}
