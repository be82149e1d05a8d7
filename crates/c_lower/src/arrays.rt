//! The arrays of a program.

ghost use Rattle.std.specs.Prelude.{◌≡◌, ◌+◌, ◌++◌, ◌∷◌, [], List, map, option_map, IfOk, OnOk};
ghost use Rattle.c_tree.specs.Program.{size};
ghost use Rattle.c_tree.specs.Lowered.{arrays_among, arrays_of_main, arrays_of_functions, arrays};
ghost use Rattle.c_flat.specs.declared.node.Node.{Node};
ghost use Rattle.c_pieces.specs.Pushed.{frame_shown};
ghost use Rattle.c_plan.specs.Plan.{routine_shown, plan_shown};
ghost use Rattle.c_lower.specs.Ground.{IsGround};

use crate::ground::Ground;
use crate::room::size_of;
use c_pieces::{Frame, sum};
use c_plan::{Plan, Routine};
use nk_base::Memory;
use std::alloc::Global;

/// Puts a variable's first cell and length behind the others, where it's an array, and answers the cell behind it.
fn push_array(shape: Option<u64>, cell: u32, out: &mut Vec<(u32, u32)>) -> Result<u32, Memory>
    ensures arrays { OnOk result (out.new.items ≡ out.old.items ++ arrays_among cell (shape ∷ [])) }
    ensures behind { IfOk result (λ k. k ≡ cell + size shape) }
{
    let cells = size_of(shape)?;
    match shape {
        None => {}
        Some(_) => out.push((cell, cells))?,
    }
    sum(cell, cells)
}

/// Puts the arrays among variables whose cells begin here behind the others. The one error is want of memory.
pub(crate) fn push_arrays(
    shapes: &[Option<u64>],
    cell: u32,
    out: &mut Vec<(u32, u32)>,
) -> Result<(), Memory>
    ensures { OnOk result (out.new.items ≡ out.old.items ++ arrays_among cell shapes.now) }
{
    let mut next = cell;
    for shape in shapes {
        next = push_array(*shape, next, out)?;
    }
    Ok(())
}

/// Puts the arrays of `main` behind the others.
fn push_main(main: &Option<Routine>, cell: u32, out: &mut Vec<(u32, u32)>) -> Result<(), Memory>
    ensures { (nodes : List Node) → OnOk result (out.new.items ≡ out.old.items ++ arrays_of_main cell (option_map (routine_shown nodes) main.now)) }
{
    match main {
        None => Ok(()),
        Some(one) => push_arrays(one.variables.as_slice(), cell, out),
    }
}

/// Puts the arrays of the other functions behind the others, by their frames.
fn push_others(
    others: &[Routine],
    frames: &[Frame],
    out: &mut Vec<(u32, u32)>,
) -> Result<(), Memory>
    ensures { (nodes : List Node) → OnOk result (out.new.items ≡ out.old.items ++ arrays_of_functions (map (routine_shown nodes) others.now) (map frame_shown frames.now)) }
{
    for (one, frame) in others.iter().zip(frames) {
        push_arrays(one.variables.as_slice(), frame.first, out)?;
    }
    Ok(())
}

/// The arrays of a program, by their first cells and lengths. The one error is want of memory.
pub(crate) fn arrays_of(
    alloc: Global,
    plan: &Plan,
    ground: &Ground,
) -> Result<Vec<(u32, u32)>, Memory>
    requires ground { IsGround (plan_shown plan.now) ground.now }
    ensures { IfOk result (λ a. a.items ≡ arrays (plan_shown plan.now)) }
{
    let mut out = Vec::new(alloc);
    push_arrays(ground.shapes.as_slice(), 0, &mut out)?;
    push_main(&plan.main, ground.globals, &mut out)?;
    push_others(plan.others.as_slice(), ground.frames.as_slice(), &mut out)?;
    Ok(out)
}
