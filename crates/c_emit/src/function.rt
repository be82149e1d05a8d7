//! The statements of functions.

ghost use Rattle.std.specs.Prelude.{◌≡◌, ◌<◌, length, OnOk};
ghost use Rattle.ir_run.specs.Shifts.{IsCellWidth};
ghost use Rattle.c_tree.specs.Program.{Function};
ghost use Rattle.c_tree.specs.Lowered.{function_steps};
ghost use Rattle.c_flat.specs.Sorts.{command_at};
ghost use Rattle.c_pieces.specs.Pushed.{Pushed, IsProgram, layout_shown};
ghost use Rattle.c_emit.specs.Placed.{leaving_shown, end_over};

use crate::command::push_command;
use crate::simple::{push_leave, push_leave_with};
use crate::spot::{Ends, Leaving};
use c_pieces::{Layout, Nodes, push, sum};
use ir_run::{Stmt, Tree};
use nk_base::Memory;
use std::alloc::Global;

/// Puts the end of a function's body behind the others, by whether it gives a value and whether the last thing in it is a
/// `return`.
#[tactic(auto, using(ir_run::proofs::Nodes::node_laws))]
fn push_end(leaving: Leaving, gives: bool, returns: bool, out: &mut Vec<Stmt>) -> Result<(), Memory>
    ensures { OnOk result (Pushed out.old.items out.new.items (end_over (leaving_shown leaving) gives returns)) }
{
    if returns {
        return Ok(());
    }
    if gives {
        return push_leave_with(leaving, Tree::Const(0), out);
    }
    push_leave(leaving, out)
}

/// Puts the statements of a function behind the others: its label's mark, its body's statements, and its end where the last
/// thing in its body is no `return`. The function gives a value or doesn't, its first step has this cell, and its label and
/// those behind it are free.
///
/// The one error is want of memory; a cell's or a label's number of 2^32 or more counts as such.
pub fn push_function(
    alloc: Global,
    program: &Nodes<'_>,
    t: &Layout<'_>,
    leaving: Leaving,
    gives: bool,
    returns: bool,
    cell: u32,
    label: u32,
    body: usize,
    out: &mut Vec<Stmt>,
) -> Result<(), Memory>
    requires width { IsCellWidth t.now.bits }
    requires program { IsProgram program.now.nodes.now program.now.sizes.now }
    requires within { body < length program.now.nodes.now }
    ensures { (f : Function) → f.gives ≡ gives → f.returns ≡ returns → f.body ≡ command_at program.now.nodes.now body → OnOk result (Pushed out.old.items out.new.items (function_steps (layout_shown t.now) (leaving_shown leaving) f cell label)) }
{
    let inside = sum(label, 1)?;
    let ends = Ends {
        broke: 0,
        continued: 0,
    };
    push(out, Stmt::Mark(label))?;
    push_command(alloc, program, t, leaving, ends, cell, inside, body, out)?;
    push_end(leaving, gives, returns, out)
}
