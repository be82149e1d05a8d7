//! The statements of commands in which no other command stands.

ghost use Rattle.std.specs.Prelude.{◌≡◌, ◌<◌, ◌+◌, [], ◌∷◌, ◌++◌, None, Some, true, length, OnOk, IfOk};
ghost use Rattle.ir_core.specs.declared.operator.Arith.TheVariants as ariths;
ghost use Rattle.ir_run.specs.Shifts.{IsCellWidth};
ghost use Rattle.ir_run.specs.Node.{Cell, Base, Load, Binary, node};
ghost use Rattle.ir_run.specs.Entry as entries;
ghost use Rattle.c_tree.specs.Program as commands;
ghost use Rattle.c_tree.specs.Code.{Value, piece, cells, index_steps};
ghost use Rattle.c_tree.specs.Lowered.{leave, leave_with};
ghost use Rattle.c_flat.specs.Sorts.{term_at, terms_at};
ghost use Rattle.c_pieces.specs.Pushed.{Pushed, Left, IsProgram, layout_shown, aim_shown};
ghost use Rattle.c_emit.specs.Placed.{leaving_shown, full, behind_index, value_at, condition_at, steps_at};

use crate::spot::{Leaving, Spot};
use c_pieces::{
    Aim, At, Layout, Nodes, address, binary, cell_number, kept, label_behind, load, push,
    push_call, push_index, push_piece, push_set, sum,
};
use c_tree::Place;
use ir_core::Arith;
use ir_run::{Stmt, Tree};
use nk_base::Memory;
use std::alloc::Global;

/// An array's element: where the array is, its length, and the node of the index.
///
/// The form is this project's own.
#[derive(Clone, Copy)]
pub(crate) struct Element {
    pub(crate) place: Place,
    pub(crate) count: u64,
    pub(crate) index: usize,
}

/// Where a full expression stands.
fn full(spot: Spot) -> At
    ensures { result ≡ full spot }
{
    At {
        cell: spot.cell,
        label: spot.label,
        later: false,
    }
}

/// Puts the steps of a condition behind the others.
///
/// The one error is want of memory; a cell's or a label's number of 2^32 or more counts as such.
pub(crate) fn push_condition(
    alloc: Global,
    program: &Nodes<'_>,
    t: &Layout<'_>,
    spot: Spot,
    aim: Aim,
    e: usize,
    out: &mut Vec<Stmt>,
) -> Result<(), Memory>
    requires width { IsCellWidth t.now.bits }
    requires program { IsProgram program.now.nodes.now program.now.sizes.now }
    requires within { e < length program.now.nodes.now }
    ensures { OnOk result (Pushed out.old.items out.new.items (condition_at (layout_shown t.now) spot (aim_shown aim) (term_at program.now.nodes.now e))) }
{
    push_piece(alloc, program, t, full(spot), aim, e, out)?;
    Ok(())
}

/// Puts the steps of a value behind the others, and answers its tree.
///
/// The one error is want of memory; a cell's or a label's number of 2^32 or more counts as such.
fn push_value(
    alloc: Global,
    program: &Nodes<'_>,
    t: &Layout<'_>,
    spot: Spot,
    e: usize,
    out: &mut Vec<Stmt>,
) -> Result<Tree, Memory>
    requires width { IsCellWidth t.now.bits }
    requires program { IsProgram program.now.nodes.now program.now.sizes.now }
    requires within { e < length program.now.nodes.now }
    ensures { IfOk result (λ left. Left out.old.items out.new.items (value_at (layout_shown t.now) spot (term_at program.now.nodes.now e)) left) }
{
    push_piece(alloc, program, t, full(spot), Aim::Value, e, out)
}

/// Puts `x = e` behind the others.
///
/// The one error is want of memory; a cell's or a label's number of 2^32 or more counts as such.
pub(crate) fn push_assigned(
    alloc: Global,
    program: &Nodes<'_>,
    t: &Layout<'_>,
    spot: Spot,
    place: Place,
    e: usize,
    out: &mut Vec<Stmt>,
) -> Result<(), Memory>
    requires width { IsCellWidth t.now.bits }
    requires program { IsProgram program.now.nodes.now program.now.sizes.now }
    requires within { e < length program.now.nodes.now }
    ensures { OnOk result (Pushed out.old.items out.new.items (steps_at (layout_shown t.now) spot (commands.Set place (term_at program.now.nodes.now e)))) }
{
    let cell = cell_number(t, place)?;
    let value = push_value(alloc, program, t, spot, e, out)?;
    push_set(out, cell, value)
}

/// Puts the store of a value behind the others, into an array's element whose index is in a cell.
#[tactic(auto, using(ir_run::proofs::Nodes::node_laws))]
fn push_stored(
    alloc: Global,
    cell: u32,
    base: u32,
    value: Tree,
    out: &mut Vec<Stmt>,
) -> Result<(), Memory>
    ensures { OnOk result (Pushed out.old.items out.new.items (entries.Store (Binary ariths.Add (Cell cell) (Base base)) (node value) ∷ [])) }
{
    let (value, to) = kept(value, address(alloc, cell, base))?;
    push(out, Stmt::Store(to, value))
}

/// Where the value stands that goes into an array's element: behind this cell, and behind the index's labels.
fn spot_of_value(program: &Nodes<'_>, spot: Spot, cell: u32, i: usize) -> Result<Spot, Memory>
    requires program { IsProgram program.now.nodes.now program.now.sizes.now }
    requires within { i < length program.now.nodes.now }
    ensures { IfOk result (λ s. s ≡ behind_index spot cell (term_at program.now.nodes.now i)) }
{
    Ok(Spot {
        cell: sum(cell, 1)?,
        label: label_behind(program, spot.label, Aim::Value, i)?,
        ..spot
    })
}

/// Puts `a[i] = e` behind the others.
///
/// The one error is want of memory; a cell's or a label's number of 2^32 or more counts as such.
pub(crate) fn push_store(
    alloc: Global,
    program: &Nodes<'_>,
    t: &Layout<'_>,
    spot: Spot,
    element: Element,
    e: usize,
    out: &mut Vec<Stmt>,
) -> Result<(), Memory>
    requires width { IsCellWidth t.now.bits }
    requires program { IsProgram program.now.nodes.now program.now.sizes.now }
    requires index { element.index < length program.now.nodes.now }
    requires value { e < length program.now.nodes.now }
    ensures { OnOk result (Pushed out.old.items out.new.items (steps_at (layout_shown t.now) spot (commands.Store element.place element.count (term_at program.now.nodes.now element.index) (term_at program.now.nodes.now e)))) }
{
    let base = cell_number(t, element.place)?;
    let cell = push_index(
        alloc,
        program,
        t,
        full(spot),
        element.count,
        element.index,
        out,
    )?;
    let behind = spot_of_value(program, spot, cell, element.index)?;
    let value = push_value(alloc, program, t, behind, e, out)?;
    push_stored(alloc, cell, base, value, out)
}

/// Puts the read of an array's element behind the others, whose index is in a cell, into another cell.
fn push_read(
    alloc: Global,
    cell: u32,
    base: u32,
    to: u32,
    out: &mut Vec<Stmt>,
) -> Result<(), Memory>
    ensures { OnOk result (Pushed out.old.items out.new.items (entries.Set to (Load (Binary ariths.Add (Cell cell) (Base base))) ∷ [])) }
{
    push_set(out, to, load(alloc, cell, base)?)
}

/// Puts the store of an operator's value behind the others, over what was read into a cell.
#[tactic(auto, using(ir_run::proofs::Nodes::node_laws))]
fn push_changed(
    alloc: Global,
    op: Arith,
    cell: u32,
    base: u32,
    from: u32,
    value: Tree,
    out: &mut Vec<Stmt>,
) -> Result<(), Memory>
    ensures { OnOk result (Pushed out.old.items out.new.items (entries.Store (Binary ariths.Add (Cell cell) (Base base)) (Binary op (Cell from) (node value)) ∷ [])) }
{
    let all = binary(alloc, op, Tree::Cell(from), value)?;
    push_stored(alloc, cell, base, all, out)
}

/// Puts `a[i] += e` and the like behind the others.
///
/// The one error is want of memory; a cell's or a label's number of 2^32 or more counts as such.
pub(crate) fn push_change(
    alloc: Global,
    program: &Nodes<'_>,
    t: &Layout<'_>,
    spot: Spot,
    element: Element,
    op: Arith,
    e: usize,
    out: &mut Vec<Stmt>,
) -> Result<(), Memory>
    requires width { IsCellWidth t.now.bits }
    requires program { IsProgram program.now.nodes.now program.now.sizes.now }
    requires index { element.index < length program.now.nodes.now }
    requires value { e < length program.now.nodes.now }
    ensures { OnOk result (Pushed out.old.items out.new.items (steps_at (layout_shown t.now) spot (commands.Change element.place element.count (term_at program.now.nodes.now element.index) op (term_at program.now.nodes.now e)))) }
{
    let base = cell_number(t, element.place)?;
    let cell = push_index(
        alloc,
        program,
        t,
        full(spot),
        element.count,
        element.index,
        out,
    )?;
    let from = sum(cell, 1)?;
    push_read(alloc, cell, base, from, out)?;
    let behind = spot_of_value(program, spot, from, element.index)?;
    let value = push_value(alloc, program, t, behind, e, out)?;
    push_changed(alloc, op, cell, base, from, value, out)
}

/// Puts `out(e)` behind the others.
///
/// The one error is want of memory; a cell's or a label's number of 2^32 or more counts as such.
pub(crate) fn push_print(
    alloc: Global,
    program: &Nodes<'_>,
    t: &Layout<'_>,
    spot: Spot,
    e: usize,
    out: &mut Vec<Stmt>,
) -> Result<(), Memory>
    requires width { IsCellWidth t.now.bits }
    requires program { IsProgram program.now.nodes.now program.now.sizes.now }
    requires within { e < length program.now.nodes.now }
    ensures { OnOk result (Pushed out.old.items out.new.items (steps_at (layout_shown t.now) spot (commands.Print (term_at program.now.nodes.now e)))) }
{
    let value = push_value(alloc, program, t, spot, e, out)?;
    push(out, Stmt::Out(value))
}

/// Puts `in()` behind the others. The one error is want of memory.
#[tactic(auto, using(ir_run::proofs::Nodes::node_laws))]
pub(crate) fn push_take(t: &Layout<'_>, spot: Spot, out: &mut Vec<Stmt>) -> Result<(), Memory>
    ensures { OnOk result (Pushed out.old.items out.new.items (steps_at (layout_shown t.now) spot commands.Take)) }
{
    push_set(out, spot.cell, Tree::In)
}

/// Puts a call for its effect behind the others.
///
/// The one error is want of memory; a cell's or a label's number of 2^32 or more counts as such.
pub(crate) fn push_invoke(
    alloc: Global,
    program: &Nodes<'_>,
    t: &Layout<'_>,
    spot: Spot,
    g: usize,
    xs: usize,
    out: &mut Vec<Stmt>,
) -> Result<(), Memory>
    requires width { IsCellWidth t.now.bits }
    requires program { IsProgram program.now.nodes.now program.now.sizes.now }
    requires within { xs < length program.now.nodes.now }
    ensures { OnOk result (Pushed out.old.items out.new.items (steps_at (layout_shown t.now) spot (commands.Invoke g (terms_at program.now.nodes.now xs)))) }
{
    push_call(alloc, program, t, full(spot), g, xs, out)
}

/// Puts a jump to a label behind the others, and the mark of another. The one error is want of memory.
pub(crate) fn push_turning(to: u32, label: u32, out: &mut Vec<Stmt>) -> Result<(), Memory>
    ensures { OnOk result (Pushed out.old.items out.new.items (entries.Jump to ∷ entries.Mark label ∷ [])) }
{
    push(out, Stmt::Jump(to))?;
    push(out, Stmt::Mark(label))
}

/// Puts behind the others how a function is left that gives nothing. The one error is want of memory.
pub(crate) fn push_leave(leaving: Leaving, out: &mut Vec<Stmt>) -> Result<(), Memory>
    ensures { OnOk result (Pushed out.old.items out.new.items (leave (leaving_shown leaving))) }
{
    match leaving {
        Leaving::Halts => push(out, Stmt::Halt(0)),
        Leaving::Returns { result: _, ret } => push(out, Stmt::JumpCell(ret)),
    }
}

/// Puts a value into its cell behind the others, and that the function goes back.
fn push_given(to: u32, ret: u32, value: Tree, out: &mut Vec<Stmt>) -> Result<(), Memory>
    ensures { OnOk result (Pushed out.old.items out.new.items (entries.Set to (node value) ∷ entries.JumpCell ret ∷ [])) }
{
    push_set(out, to, value)?;
    push(out, Stmt::JumpCell(ret))
}

/// Puts behind the others how a function is left that gives this value. The one error is want of memory.
pub(crate) fn push_leave_with(
    leaving: Leaving,
    value: Tree,
    out: &mut Vec<Stmt>,
) -> Result<(), Memory>
    ensures { OnOk result (Pushed out.old.items out.new.items (leave_with (leaving_shown leaving) (node value))) }
{
    match leaving {
        Leaving::Halts => push(out, Stmt::Halt(0)),
        Leaving::Returns { result, ret } => push_given(result, ret, value, out),
    }
}

/// Puts `return` with a value behind the others.
///
/// The one error is want of memory; a cell's or a label's number of 2^32 or more counts as such.
pub(crate) fn push_return_with(
    alloc: Global,
    program: &Nodes<'_>,
    t: &Layout<'_>,
    spot: Spot,
    e: usize,
    out: &mut Vec<Stmt>,
) -> Result<(), Memory>
    requires width { IsCellWidth t.now.bits }
    requires program { IsProgram program.now.nodes.now program.now.sizes.now }
    requires within { e < length program.now.nodes.now }
    ensures { OnOk result (Pushed out.old.items out.new.items (steps_at (layout_shown t.now) spot (commands.Return (Some (term_at program.now.nodes.now e))))) }
{
    let value = push_value(alloc, program, t, spot, e, out)?;
    push_leave_with(spot.leaving, value, out)
}
