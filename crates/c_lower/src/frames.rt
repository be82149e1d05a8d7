//! Where the cells and the labels of functions begin.

ghost use Rattle.std.specs.Prelude.{◌≡◌, ◌<◌, ◌+◌, ◌++◌, ◌∷◌, [], length, map, All, IfOk, OnOk};
ghost use Rattle.c_tree.specs.Code.{one_if};
ghost use Rattle.c_tree.specs.Lowered.{own_cells, function_marks, frame};
ghost use Rattle.c_pieces.specs.Pushed.{IsProgram, frame_shown};
ghost use Rattle.c_plan.specs.Plan.{routine_shown};
ghost use Rattle.c_lower.specs.Frames.{IsBehind, HasFrames};

use crate::room::sizes_of;
use c_count::command_size_of;
use c_pieces::{Frame, Nodes, sum};
use c_plan::Routine;
use nk_base::Memory;
use std::alloc::Global;

/// The first cell and the first label that are free.
///
/// The form is this project's own.
#[derive(Clone, Copy)]
pub struct Free {
    pub cell: u32,
    pub label: u32,
}

/// How many cells a function's parameters, locals and steps have. The one error is want of memory.
pub(crate) fn own_cells_of(program: &Nodes<'_>, one: &Routine) -> Result<u32, Memory>
    requires program { IsProgram program.now.nodes.now program.now.sizes.now }
    requires within { one.now.body < length program.now.nodes.now }
    ensures { IfOk result (λ k. k ≡ own_cells (routine_shown program.now.nodes.now one.now)) }
{
    let steps = command_size_of(program.sizes, one.body).cells;
    sum(sizes_of(one.variables.as_slice())?, steps)
}

/// How many labels a function marks. The one error is want of memory.
pub(crate) fn marks_of(program: &Nodes<'_>, one: &Routine) -> Result<u32, Memory>
    requires program { IsProgram program.now.nodes.now program.now.sizes.now }
    requires within { one.now.body < length program.now.nodes.now }
    ensures { IfOk result (λ k. k ≡ function_marks (routine_shown program.now.nodes.now one.now)) }
{
    sum(1, command_size_of(program.sizes, one.body).marks)
}

/// The frame of a function whose cells and labels begin here.
fn frame_of(own: u32, gives: bool, free: Free) -> Result<Frame, Memory>
    ensures { IfOk result (λ f. frame_shown f ≡ record { first = free.cell; result = free.cell + own; ret = free.cell + own + one_if gives; label = free.label }) }
{
    let result = sum(free.cell, own)?;
    let ret = if gives { sum(result, 1)? } else { result };
    Ok(Frame {
        first: free.cell,
        result,
        ret,
        label: free.label,
    })
}

/// Puts a function's frame behind the others, and answers what is free behind it.
fn push_frame(
    program: &Nodes<'_>,
    one: &Routine,
    free: Free,
    out: &mut Vec<Frame>,
) -> Result<Free, Memory>
    requires program { IsProgram program.now.nodes.now program.now.sizes.now }
    requires within { one.now.body < length program.now.nodes.now }
    ensures frames { OnOk result (map frame_shown out.new.items ≡ map frame_shown out.old.items ++ frame free.cell free.label (routine_shown program.now.nodes.now one.now) ∷ []) }
    ensures free { IfOk result (λ next. IsBehind free (routine_shown program.now.nodes.now one.now ∷ []) next) }
{
    let own = own_cells_of(program, one)?;
    let frame = frame_of(own, one.gives, free)?;
    out.push(frame)?;
    Ok(Free {
        cell: sum(frame.ret, 1)?,
        label: sum(free.label, marks_of(program, one)?)?,
    })
}

/// The frames of functions whose cells and labels begin here, and what is free behind them. The one error is want of memory.
pub(crate) fn frames_of(
    alloc: Global,
    program: &Nodes<'_>,
    others: &[Routine],
    free: Free,
) -> Result<(Vec<Frame>, Free), Memory>
    requires program { IsProgram program.now.nodes.now program.now.sizes.now }
    requires within { All (λ r. r.body < length program.now.nodes.now) others.now }
    ensures { IfOk result (λ (fs, next). HasFrames free (map (routine_shown program.now.nodes.now) others.now) fs.items next) }
{
    let mut out = Vec::new(alloc);
    let mut next = free;
    for one in others {
        next = push_frame(program, one, next, &mut out)?;
    }
    Ok((out, next))
}
