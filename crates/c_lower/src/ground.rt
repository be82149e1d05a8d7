//! Where a program's cells and labels lie.

ghost use Rattle.std.specs.Prelude.{◌≡◌, ◌<◌, ◌+◌, length, option_map, IfOk, IfSome};
ghost use Rattle.c_tree.specs.Lowered.{main_cells, main_marks};
ghost use Rattle.c_pieces.specs.Pushed.{IsProgram};
ghost use Rattle.c_plan.specs.Plan.{routine_shown, plan_shown};
ghost use Rattle.c_lower.specs.Ground.{IsReady, IsGround};

use crate::frames::{Free, frames_of, marks_of, own_cells_of};
use crate::room::{shapes_of, sizes_of};
use c_pieces::{Frame, Nodes, sum};
use c_plan::{Plan, Routine};
use nk_base::Memory;
use std::alloc::Global;

/// The lengths of the global variables that are arrays, how many cells the global variables have, the frames of the functions
/// other than `main`, and what is free behind them: the first constant's cell, and the trap's label.
///
/// The form is this project's own.
#[derive(Drop)]
pub struct Ground {
    pub shapes: Vec<Option<u64>>,
    pub globals: u32,
    pub frames: Vec<Frame>,
    pub free: Free,
}

/// What is free behind `main`, where there is one.
fn behind_main(program: &Nodes<'_>, main: &Option<Routine>, cell: u32) -> Result<Free, Memory>
    requires program { IsProgram program.now.nodes.now program.now.sizes.now }
    requires within { IfSome main.now (λ r. r.body < length program.now.nodes.now) }
    ensures { IfOk result (λ f. (f.cell ≡ cell + main_cells (option_map (routine_shown program.now.nodes.now) main.now)) × (f.label ≡ main_marks (option_map (routine_shown program.now.nodes.now) main.now))) }
{
    match main {
        None => Ok(Free { cell, label: 0 }),
        Some(one) => Ok(Free {
            cell: sum(cell, own_cells_of(program, one)?)?,
            label: marks_of(program, one)?,
        }),
    }
}

/// Where a program's cells and labels lie. The one error is want of memory.
pub(crate) fn ground_of(alloc: Global, plan: &Plan) -> Result<Ground, Memory>
    requires plan { IsReady plan.now }
    ensures { IfOk result (λ g. IsGround (plan_shown plan.now) g) }
{
    let program = Nodes {
        nodes: plan.nodes.as_slice(),
        sizes: plan.sizes.as_slice(),
    };
    let shapes = shapes_of(alloc, plan.variables.as_slice())?;
    let globals = sizes_of(shapes.as_slice())?;
    let first = behind_main(&program, &plan.main, globals)?;
    let (frames, free) = frames_of(alloc, &program, plan.others.as_slice(), first)?;
    Ok(Ground {
        shapes,
        globals,
        frames,
        free,
    })
}
