//! The statements of a program.

ghost use Rattle.std.specs.Prelude.{◌≡◌, ◌<◌, ◌≤◌, ◌∷◌, [], length, map, option_map, All, IfOk, IfSome, OnOk};
ghost use Rattle.ir_run.specs.Entry.{entry};
ghost use Rattle.ir_run.specs.Shifts.{IsCellWidth};
ghost use Rattle.c_tree.specs.Lowered.{program_entries};
ghost use Rattle.c_pieces.specs.Pushed.{Pushed, IsProgram, layout_shown, frame_shown};
ghost use Rattle.c_plan.specs.Plan.{routine_shown, plan_shown};
ghost use Rattle.c_lower.specs.Ground.{IsReady, IsGround};
ghost use Rattle.c_lower.specs.Steps.{steps_of_main, steps_of_others};

use crate::ground::Ground;
use crate::room::sizes_of;
use c_emit::{Leaving, push_function};
use c_homes::push_trap;
use c_pieces::{Frame, Layout, Nodes, sum};
use c_plan::{Plan, Routine};
use ir_run::Stmt;
use nk_base::Memory;
use std::alloc::Global;

/// Puts the statements of `main` behind the others, where there is one.
fn push_main(
    alloc: Global,
    program: &Nodes<'_>,
    t: &Layout<'_>,
    main: &Option<Routine>,
    out: &mut Vec<Stmt>,
) -> Result<(), Memory>
    requires width { IsCellWidth t.now.bits }
    requires program { IsProgram program.now.nodes.now program.now.sizes.now }
    requires within { IfSome main.now (λ r. r.body < length program.now.nodes.now) }
    ensures { OnOk result (Pushed out.old.items out.new.items (steps_of_main (layout_shown t.now) (option_map (routine_shown program.now.nodes.now) main.now))) }
{
    match main {
        None => Ok(()),
        Some(one) => {
            let first = sum(t.base, sizes_of(one.variables.as_slice())?)?;
            push_function(
                alloc,
                program,
                t,
                Leaving::Halts,
                one.gives,
                one.returns,
                first,
                0,
                one.body,
                out,
            )
        }
    }
}

/// Puts the statements of another function behind the others, by its frame.
fn push_other(
    alloc: Global,
    program: &Nodes<'_>,
    t: &Layout<'_>,
    one: &Routine,
    frame: Frame,
    out: &mut Vec<Stmt>,
) -> Result<(), Memory>
    requires width { IsCellWidth t.now.bits }
    requires program { IsProgram program.now.nodes.now program.now.sizes.now }
    requires within { one.now.body < length program.now.nodes.now }
    ensures { OnOk result (Pushed out.old.items out.new.items (steps_of_others (layout_shown t.now) (routine_shown program.now.nodes.now one.now ∷ []) (frame_shown frame ∷ []))) }
{
    let own = Layout {
        bits: t.bits,
        base: frame.first,
        frames: t.frames,
        trap: t.trap,
    };
    let leaving = Leaving::Returns {
        result: frame.result,
        ret: frame.ret,
    };
    let first = sum(frame.first, sizes_of(one.variables.as_slice())?)?;
    push_function(
        alloc,
        program,
        &own,
        leaving,
        one.gives,
        one.returns,
        first,
        frame.label,
        one.body,
        out,
    )
}

/// Puts the statements of the other functions behind the others.
fn push_others(
    alloc: Global,
    program: &Nodes<'_>,
    t: &Layout<'_>,
    others: &[Routine],
    out: &mut Vec<Stmt>,
) -> Result<(), Memory>
    requires width { IsCellWidth t.now.bits }
    requires program { IsProgram program.now.nodes.now program.now.sizes.now }
    requires within { All (λ r. r.body < length program.now.nodes.now) others.now }
    ensures { OnOk result (Pushed out.old.items out.new.items (steps_of_others (layout_shown t.now) (map (routine_shown program.now.nodes.now) others.now) (layout_shown t.now).frames)) }
{
    for (one, frame) in others.iter().zip(t.frames) {
        push_other(alloc, program, t, one, *frame, out)?;
    }
    Ok(())
}

/// The statements of a program. The one error is want of memory.
pub(crate) fn statements_of(
    alloc: Global,
    plan: &Plan,
    ground: &Ground,
    n: u32,
) -> Result<Vec<Stmt>, Memory>
    requires plan { IsReady plan.now }
    requires ground { IsGround (plan_shown plan.now) ground.now }
    requires low { 16 ≤ n }
    requires high { n ≤ 32 }
    ensures { IfOk result (λ out. map entry out.items ≡ program_entries (plan_shown plan.now) n) }
{
    let program = Nodes {
        nodes: plan.nodes.as_slice(),
        sizes: plan.sizes.as_slice(),
    };
    let layout = Layout {
        bits: n,
        base: ground.globals,
        frames: ground.frames.as_slice(),
        trap: ground.free.label,
    };
    let mut out = Vec::new(alloc);
    push_main(alloc, &program, &layout, &plan.main, &mut out)?;
    push_others(alloc, &program, &layout, plan.others.as_slice(), &mut out)?;
    push_trap(&mut out, ground.free.label)?;
    Ok(out)
}
