//! A program as a list of statements with its cells.

ghost use Rattle.std.specs.Prelude.{◌≡◌, ◌≤◌, IfOk};
ghost use Rattle.ir_run.specs.Entry.{listing};
ghost use Rattle.ir_run.specs.Shifts.{AllShift};
ghost use Rattle.ir_run.specs.Promise.{Promise};
ghost use Rattle.c_tree.specs.AgreeIr.{AgreeIr};
ghost use Rattle.c_tree.specs.Counts.{data_of};
ghost use Rattle.c_tree.specs.Lowered.{lowered};
ghost use Rattle.c_tree.specs.Resolve.{resolved};
ghost use Rattle.c_plan.specs.Plan.{plan_shown};
ghost use Rattle.c_lower.specs.Ground.{IsReady, IsLowered};

use crate::arrays::arrays_of;
use crate::ground::ground_of;
use crate::values::values_of;
use crate::written::statements_of;
use c_homes::{homes_of, most_nodes, start_of};
use c_pieces::sum;
use c_plan::{Plan, plan_of};
use c_tree::CProg;
use ir_run::Ir;
use nk_base::Memory;
use sqlite_items::Items;
use std::alloc::Global;

/// A planned program as statements.
fn lower_plan(alloc: Global, plan: &Plan, n: u32) -> Result<Ir, Memory>
    requires plan { IsReady plan.now }
    requires low { 16 ≤ n }
    requires high { n ≤ 32 }
    ensures { IfOk result (λ i. IsLowered (listing i) (plan_shown plan.now) n) }
{
    let ground = ground_of(alloc, plan)?;
    let stmts = statements_of(alloc, plan, &ground, n)?;
    let arrays = arrays_of(alloc, plan, &ground)?;
    let homes = homes_of(
        alloc,
        stmts.as_slice(),
        arrays.as_slice(),
        ground.free.cell,
        n,
    )?;
    let values = values_of(alloc, plan.variables.as_slice())?;
    let start = start_of(alloc, values.as_slice(), &homes, n)?;
    let temporaries = sum(8, most_nodes(stmts.as_slice())?)?;
    Ok(Ir {
        cells: sum(homes.temps, temporaries)?,
        stmts: Items::from_vec(stmts),
        start,
        arrays: Items::from_vec(arrays),
        homes,
    })
}

/// An accepted program as statements over trees, by the table of lowering, with its cells.
///
/// The program has at most 65,536 cells. Its statements print and stop as it does, for every bound of steps and of turns on
/// both sides, and keep all promises to whoever makes words of them: no run loads or stores outside an array, no array and no
/// `Set` touches a home or a temporary, a label is only put in a cell or gone to, and what is gone to has a mark. The one error is
/// want of memory. The table is this project's own.
pub fn lower(alloc: Global, p: &CProg) -> Result<Ir, Memory>
    requires cells { data_of (resolved p.now.0) p.now.1 ≤ 65536 }
    ensures statements { IfOk result (λ i. listing i ≡ lowered (resolved p.now.0) p.now.1) }
    ensures cells { IfOk result (λ i. i.cells ≡ data_of (resolved p.now.0) p.now.1) }
    ensures shifts { IfOk result (λ i. AllShift p.now.1 (listing i).entries) }
    ensures agrees { IfOk result (λ i. AgreeIr (listing i) (resolved p.now.0) p.now.1) }
    ensures promises { IfOk result (λ i. Promise 1 (listing i) p.now.1) }
{
    let plan = plan_of(alloc, &p.tree)?;
    lower_plan(alloc, &plan, p.n)
}
